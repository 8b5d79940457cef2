ghost use Rattle.std.specs.Prelude.{◌≡◌, [], IfOk};
ghost use Rattle.c_tree.specs.declared.declarations.Init.TheVariants as init;
ghost use Rattle.parse_terms.specs.Terminals.{name_of};
ghost use Rattle.parse_decl.specs.declared.inits.InitState.{InitState};
ghost use Rattle.parse_decl.specs.Inits.{address, with_step, init_leaf, address_init, with_init, listed_init, value_step, shut, next_step, negated_step, addressed_step, whole_step, whole_in, stepping_step, dot_step, bracket_step, closing_step, init_step, InitSays};
ghost use Rattle.parse_decl.specs.declared.inits.InitFocus.TheVariants.{Stepping};

use c_lex::Mark;
use c_tree::{Init, Literal, Name, Step};
use c_types::Span;
use hx_words::{Boxed, Items};
use parse_terms::{Sort, Stack, Terminal, Verdict, copy_name};
use std::alloc::{AllocError, Global};
use std::mem;

/// The most nodes on a path of a tree that is kept.
const MOST: u32 = 256;

/// A value and its height, at most 256, or one that was given up.
#[derive(Drop)]
pub enum InitPart {
    Built(Boxed<Init>, u32),
    Deep,
}

/// Values in braces and the largest of their heights.
#[derive(Drop)]
pub enum InitParts {
    Built(Items<Init>, u32),
    Deep,
}

/// A name with the parts behind it, and the place of a `&` before it.
#[derive(Drop)]
pub struct Address {
    pub ampersand: Option<Span>,
    pub name: Name,
    pub steps: Items<Step>,
}

/// An open list, with the place of its `{` and the values before the one that is being read.
#[derive(Drop)]
pub struct InitFrame {
    pub brace: Span,
    pub parts: InitParts,
}

/// What comes next.
#[derive(Drop)]
pub enum InitFocus {
    /// A value is to begin.
    Value,
    /// After a comma: a value is to begin, or the list ends.
    Next,
    /// After `-`.
    Negated(Span),
    /// After `&`.
    Addressed(Span),
    /// After a name and some parts: more may follow.
    Stepping(Address),
    /// After `.`
    Dot(Address, Span),
    /// After `[`.
    Bracket(Address, Span),
    /// After an index: `]` is to come.
    Closing(Address),
    /// A value has been read that nothing goes on.
    Whole(InitPart),
}

/// An initial value that is being read.
#[derive(Drop)]
pub struct InitState {
    pub focus: InitFocus,
    pub frames: Stack<InitFrame>,
}

impl InitState {
    /// Something else comes next. What came before is dropped by a call, whose proof is shared.
    fn go_to(&mut self, focus: InitFocus)
        ensures { self.new ≡ record self.old { focus = focus } }
    {
        drop(mem::replace(&mut self.focus, focus));
    }
}

fn make_leaf(alloc: Global, init: Init) -> Result<InitPart, AllocError>
    ensures { IfOk result (λ r. r ≡ init_leaf init) }
{
    Ok(InitPart::Built(Boxed::new(alloc, init)?, 1))
}

/// The values and one more.
#[tactic(auto, unfolding(crate::specs::Inits::with_init))]
fn add(parts: InitParts, part: InitPart) -> Result<InitParts, AllocError>
    ensures { IfOk result (λ r. r ≡ with_init parts part) }
{
    let InitParts::Built(inits, m) = parts else {
        return Ok(InitParts::Deep);
    };
    let InitPart::Built(init, n) = part else {
        return Ok(InitParts::Deep);
    };
    let mut inits = inits;
    inits.push(init.into_inner())?;
    Ok(InitParts::Built(inits, m.max(n)))
}

/// The values in braces.
#[tactic(auto, unfolding(crate::specs::Inits::listed_init))]
fn make_list(alloc: Global, brace: Span, parts: InitParts) -> Result<InitPart, AllocError>
    ensures { IfOk result (λ r. r ≡ listed_init 256 brace parts) }
{
    match parts {
        InitParts::Built(inits, height) if height < MOST => {
            let init = Boxed::new(alloc, Init::List(brace, inits))?;
            Ok(InitPart::Built(init, height + 1))
        }
        _ => Ok(InitPart::Deep),
    }
}

fn extended(address: Address, step: Step) -> Result<Address, AllocError>
    ensures { IfOk result (λ r. r ≡ with_step address step) }
{
    let mut steps = address.steps;
    steps.push(step)?;
    Ok(Address {
        ampersand: address.ampersand,
        name: address.name,
        steps,
    })
}

fn address_leaf(alloc: Global, address: Address) -> Result<InitPart, AllocError>
    ensures { IfOk result (λ r. r ≡ init_leaf (address_init address)) }
{
    make_leaf(
        alloc,
        Init::Name(address.ampersand, address.name, address.steps),
    )
}

fn named(
    alloc: Global,
    text: &Items<u8>,
    span: Span,
    ampersand: Option<Span>,
) -> Result<InitFocus, AllocError>
    ensures { IfOk result (λ r. r ≡ Stepping (address ampersand (name_of text.now span) [])) }
{
    Ok(InitFocus::Stepping(Address {
        ampersand,
        name: copy_name(alloc, text, span)?,
        steps: Items::new(alloc),
    }))
}

fn text_leaf(alloc: Global, text: &Items<u8>, span: Span) -> Result<InitPart, AllocError>
    ensures { IfOk result (λ r. r ≡ init_leaf (init.Text text.now span)) }
{
    let text = Items::from_slice(alloc, text.as_slice())?;
    make_leaf(alloc, Init::Text(text, span))
}

/// A value begins.
fn with_value(
    alloc: Global,
    token: &Terminal,
    state: &mut InitState,
) -> Result<Verdict<InitPart>, AllocError>
    ensures { IfOk result (λ r. InitSays r (value_step token.now.sort token.now.span state.old.frames) state.new) }
{
    let span = token.span;
    let focus = match &token.sort {
        Sort::Number(value, ty) => {
            let literal = Literal {
                value: *value,
                ty: *ty,
                span,
            };
            InitFocus::Whole(make_leaf(alloc, Init::Number(None, literal))?)
        }
        Sort::Char(value) => InitFocus::Whole(make_leaf(alloc, Init::Char(*value, span))?),
        Sort::Text(text) => InitFocus::Whole(text_leaf(alloc, text, span)?),
        Sort::Name(text) => named(alloc, text, span, None)?,
        Sort::Mark(Mark::Minus) => InitFocus::Negated(span),
        Sort::Mark(Mark::Ampersand) => InitFocus::Addressed(span),
        Sort::Mark(Mark::OpenBrace) => {
            state.frames.push(InitFrame {
                brace: span,
                parts: InitParts::Built(Items::new(alloc), 0),
            })?;
            InitFocus::Value
        }
        _ => return Ok(Verdict::Bad),
    };
    state.go_to(focus);
    Ok(Verdict::More)
}

/// A `}` ends the values of a list.
fn with_brace(alloc: Global, state: &mut InitState) -> Result<Verdict<InitPart>, AllocError>
    ensures { IfOk result (λ r. InitSays r (shut 256 state.old.frames) state.new) }
{
    match state.frames.pop() {
        Some(frame) => {
            let part = make_list(alloc, frame.brace, frame.parts)?;
            state.go_to(InitFocus::Whole(part));
            Ok(Verdict::More)
        }
        None => Ok(Verdict::Bad),
    }
}

fn with_next(
    alloc: Global,
    token: &Terminal,
    state: &mut InitState,
) -> Result<Verdict<InitPart>, AllocError>
    ensures { IfOk result (λ r. InitSays r (next_step 256 token.now.sort token.now.span state.old.frames) state.new) }
{
    match &token.sort {
        Sort::Mark(Mark::CloseBrace) => with_brace(alloc, state),
        _ => with_value(alloc, token, state),
    }
}

fn with_negated(
    alloc: Global,
    token: &Terminal,
    minus: Span,
    state: &mut InitState,
) -> Result<Verdict<InitPart>, AllocError>
    ensures { IfOk result (λ r. InitSays r (negated_step token.now.sort token.now.span minus state.old.frames) state.new) }
{
    match &token.sort {
        Sort::Number(value, ty) => {
            let literal = Literal {
                value: *value,
                ty: *ty,
                span: token.span,
            };
            let part = make_leaf(alloc, Init::Number(Some(minus), literal))?;
            state.go_to(InitFocus::Whole(part));
            Ok(Verdict::More)
        }
        _ => Ok(Verdict::Bad),
    }
}

fn with_addressed(
    alloc: Global,
    token: &Terminal,
    ampersand: Span,
    state: &mut InitState,
) -> Result<Verdict<InitPart>, AllocError>
    ensures { IfOk result (λ r. InitSays r (addressed_step token.now.sort token.now.span ampersand state.old.frames) state.new) }
{
    match &token.sort {
        Sort::Name(text) => {
            let focus = named(alloc, text, token.span, Some(ampersand))?;
            state.go_to(focus);
            Ok(Verdict::More)
        }
        _ => Ok(Verdict::Bad),
    }
}

fn within(
    alloc: Global,
    mark: Mark,
    part: InitPart,
    frame: InitFrame,
    state: &mut InitState,
) -> Result<Verdict<InitPart>, AllocError>
    ensures { IfOk result (λ r. InitSays r (whole_in 256 mark part frame state.old.frames) state.new) }
{
    let brace = frame.brace;
    match mark {
        Mark::Comma => {
            let parts = add(frame.parts, part)?;
            state.frames.push(InitFrame { brace, parts })?;
            state.go_to(InitFocus::Next);
            Ok(Verdict::More)
        }
        Mark::CloseBrace => {
            let parts = add(frame.parts, part)?;
            let part = make_list(alloc, brace, parts)?;
            state.go_to(InitFocus::Whole(part));
            Ok(Verdict::More)
        }
        _ => Ok(Verdict::Bad),
    }
}

/// Behind a value.
fn with_whole(
    alloc: Global,
    token: &Terminal,
    part: InitPart,
    state: &mut InitState,
) -> Result<Verdict<InitPart>, AllocError>
    ensures { IfOk result (λ r. InitSays r (whole_step 256 token.now.sort part state.old.frames) state.new) }
{
    let Some(frame) = state.frames.pop() else {
        return Ok(Verdict::Done(part));
    };
    match &token.sort {
        Sort::Mark(mark) => within(alloc, *mark, part, frame, state),
        _ => Ok(Verdict::Bad),
    }
}

fn with_stepping(
    alloc: Global,
    token: &Terminal,
    address: Address,
    state: &mut InitState,
) -> Result<Verdict<InitPart>, AllocError>
    ensures { IfOk result (λ r. InitSays r (stepping_step 256 token.now.sort token.now.span address state.old.frames) state.new) }
{
    match &token.sort {
        Sort::Mark(Mark::Dot) => state.go_to(InitFocus::Dot(address, token.span)),
        Sort::Mark(Mark::OpenBracket) => state.go_to(InitFocus::Bracket(address, token.span)),
        _ => {
            let part = address_leaf(alloc, address)?;
            return with_whole(alloc, token, part, state);
        }
    }
    Ok(Verdict::More)
}

fn with_dot(
    alloc: Global,
    token: &Terminal,
    address: Address,
    dot: Span,
    state: &mut InitState,
) -> Result<Verdict<InitPart>, AllocError>
    ensures { IfOk result (λ r. InitSays r (dot_step token.now.sort token.now.span address dot state.old.frames) state.new) }
{
    match &token.sort {
        Sort::Name(text) => {
            let name = copy_name(alloc, text, token.span)?;
            let address = extended(address, Step::Field(dot, name))?;
            state.go_to(InitFocus::Stepping(address));
            Ok(Verdict::More)
        }
        _ => Ok(Verdict::Bad),
    }
}

fn with_bracket(
    token: &Terminal,
    address: Address,
    bracket: Span,
    state: &mut InitState,
) -> Result<Verdict<InitPart>, AllocError>
    ensures { IfOk result (λ r. InitSays r (bracket_step token.now.sort token.now.span address bracket state.old.frames) state.new) }
{
    match &token.sort {
        Sort::Number(value, ty) => {
            let literal = Literal {
                value: *value,
                ty: *ty,
                span: token.span,
            };
            let address = extended(address, Step::Index(bracket, literal))?;
            state.go_to(InitFocus::Closing(address));
            Ok(Verdict::More)
        }
        _ => Ok(Verdict::Bad),
    }
}

fn with_closing(token: &Terminal, address: Address, state: &mut InitState) -> Verdict<InitPart>
    ensures { InitSays result (closing_step token.now.sort address state.old.frames) state.new }
{
    match &token.sort {
        Sort::Mark(Mark::CloseBracket) => {
            state.go_to(InitFocus::Stepping(address));
            Verdict::More
        }
        _ => Verdict::Bad,
    }
}

/// An initial value takes a token. After [`Verdict::Done`] and [`Verdict::Bad`] the state is spent.
pub fn step_init(
    alloc: Global,
    token: &Terminal,
    state: &mut InitState,
) -> Result<Verdict<InitPart>, AllocError>
    ensures { IfOk result (λ r. InitSays r (init_step 256 token.now state.old) state.new) }
{
    match mem::replace(&mut state.focus, InitFocus::Value) {
        InitFocus::Value => with_value(alloc, token, state),
        InitFocus::Next => with_next(alloc, token, state),
        InitFocus::Negated(minus) => with_negated(alloc, token, minus, state),
        InitFocus::Addressed(ampersand) => with_addressed(alloc, token, ampersand, state),
        InitFocus::Stepping(address) => with_stepping(alloc, token, address, state),
        InitFocus::Dot(address, dot) => with_dot(alloc, token, address, dot, state),
        InitFocus::Bracket(address, bracket) => with_bracket(token, address, bracket, state),
        InitFocus::Closing(address) => Ok(with_closing(token, address, state)),
        InitFocus::Whole(part) => with_whole(alloc, token, part, state),
    }
}
