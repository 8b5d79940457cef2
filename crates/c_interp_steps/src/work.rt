use c_meaning::SourceEnd;
use c_program::{
    Arithmetic, Comparison, Declared, ForBegin, Place, Service, Target, TypedExpr, TypedItem,
    TypedStmt,
};
use c_types::{IntTy, Ty};
use c_values::{Object, Parts, Value};

/// What a call calls, once its arguments are there.
#[derive(Drop)]
pub enum Called {
    /// A function or an adjustor by its name.
    Named(Target),
    /// What a value points to.
    Pointed(Value),
    Service(Service),
}

/// A loop from its condition on: the condition, the step and the body.
#[derive(Clone, Copy)]
pub struct Loop<'a> {
    pub test: Option<&'a TypedExpr>,
    pub step: Option<&'a TypedExpr>,
    pub body: &'a TypedStmt,
}

/// How a statement ended.
#[derive(Drop)]
pub enum Ending {
    Normal,
    Broke,
    Continued,
    Gave(Value),
}

/// What waits for a value and gives a value.
#[derive(Drop)]
pub enum ValueWork<'a> {
    Negate(IntTy),
    Complement(IntTy),
    Not,
    Convert(IntTy),
    /// The left operand comes, and the right one is to be evaluated.
    BinaryThen(Arithmetic, IntTy, &'a TypedExpr),
    /// The right operand comes.
    BinaryWith(Arithmetic, IntTy, Value),
    CompareThen(Comparison, &'a TypedExpr),
    CompareWith(Comparison, Value),
    AndThen(&'a TypedExpr),
    OrThen(&'a TypedExpr),
    /// The right operand of `&&` or `||` comes.
    Truth,
    Choose(&'a TypedExpr, &'a TypedExpr),
    /// The right side of an assignment to an object comes.
    StoreAt(Object),
    /// The right side of a compound assignment to an object that held this value comes.
    UpdateAt(Arithmetic, IntTy, IntTy, Object, Value),
    FieldOf(u32),
    ElementThen(&'a TypedExpr, u64),
    ElementWith(Value, u64),
    /// The called value comes.
    CallThen(&'a [TypedExpr]),
    /// One more argument comes after these; the others are to be evaluated.
    Arguments(Called, Parts<Value>, &'a [TypedExpr]),
    /// What an adjustor's target gives comes.
    LeaveAdjustor,
}

/// What waits for a value and gives an object.
#[derive(Drop)]
pub enum FindWork {
    Target,
    Arrow(u32),
    /// The index into an array comes.
    ElementAt(Object, u64),
}

/// What waits for a value and gives a statement's end.
#[derive(Drop)]
pub enum RunWork<'a> {
    Discard,
    SetLocal(u32),
    If(&'a TypedStmt),
    IfElse(&'a TypedStmt, &'a TypedStmt),
    LoopTest(Loop<'a>),
    LoopStep(Loop<'a>),
    Return,
}

/// What waits for an object and gives an object.
#[derive(Drop)]
pub enum PlaceWork<'a> {
    Field(u32),
    ElementThen(&'a TypedExpr, u64),
}

/// What waits for an object and gives a value.
#[derive(Drop)]
pub enum UseWork<'a> {
    Load,
    Address,
    AssignThen(&'a TypedExpr),
    UpdateThen(Arithmetic, IntTy, IntTy, &'a TypedExpr),
    Before(IntTy, bool),
    After(IntTy, bool),
}

/// What waits for a statement's end and gives another.
#[derive(Drop)]
pub enum FlowWork<'a> {
    /// The rest of a block.
    Items(&'a [TypedItem]),
    /// The rest of the declarators before a loop.
    Declares(&'a [Declared]),
    /// The loop after its start.
    Begin(Loop<'a>),
    /// The loop after its body.
    Again(Loop<'a>),
    /// `do`: the condition after the first turn of the body.
    Do(&'a TypedExpr, &'a TypedStmt),
}

/// What waits.
#[derive(Drop)]
pub enum Pending<'a> {
    Value(ValueWork<'a>),
    Find(FindWork),
    Run(RunWork<'a>),
    Place(PlaceWork<'a>),
    Use(UseWork<'a>),
    Flow(FlowWork<'a>),
    /// A call's body, with the result's type.
    Leave(Ty),
    /// A call's caller.
    Back,
}

/// What is done next.
#[derive(Drop)]
pub enum Now<'a> {
    Value(&'a TypedExpr),
    Place(&'a Place),
    Statement(&'a TypedStmt),
    Item(&'a TypedItem),
    Declare(&'a Declared),
    /// A place whose unit is paid.
    Paid(&'a Place),
    /// What stands before the first `;` of a `for`.
    Begin(&'a ForBegin),
    Loop(Loop<'a>),
    /// A local of the innermost call is found.
    Local(u32),
    /// `va_arg`
    Extra(IntTy),
    /// `va_start`, or that it is no longer in force.
    Extras(bool),
    /// A value is stored in an object.
    Store(Object, Value),
    /// A value is stored in a local of the innermost call, which ends a declarator.
    SetLocal(u32, Value),
    /// The innermost call ends with a value.
    Close(Value),
    /// All arguments are there.
    Calling(Called, Parts<Value>),
    /// A call of a target with its arguments.
    Call(Target, Parts<Value>),
    /// A value goes to what waits.
    Got(Value),
    /// An object goes to what waits.
    Found(Object),
    /// A statement's end goes to what waits.
    Ended(Ending),
    /// The run stops so.
    Stopped(SourceEnd),
}

/// What a step leaves: what is done next, and what is to wait for it.
#[derive(Drop)]
pub enum Turn<'a> {
    Go(Now<'a>),
    Await(Pending<'a>, Now<'a>),
}
