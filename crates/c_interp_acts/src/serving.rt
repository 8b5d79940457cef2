//! Services: a byte is put, the next one is taken, or the run ends.
ghost use Rattle.std.specs.Prelude.{◌≡◌, ◌≤◌, ◌∷◌, [], IsTrue, IfOk, IsErrOf, OnErr, List, ℕ, pos};
ghost use Rattle.hx_words.specs.Counts.{Rose};
ghost use Rattle.hx_io.specs.Streams.{Puts};
ghost use Rattle.c_values.specs.Numbers.{low_bits};
ghost use Rattle.c_values.specs.Objects.{number_in};
ghost use Rattle.c_meaning.specs.Rules.{first_number, Setting};
ghost use Rattle.c_meaning.specs.Source.{Stand};
ghost use Rattle.c_interp_acts.specs.Going.{TakesByte, Less, Ties, Broke};

use crate::machine::Machine;
use crate::meant::MeanFail;
use c_interp_steps::{Called, Now};
use c_meaning::SourceEnd;
use c_program::Service;
use c_state::Store;
use c_types::IntTy;
use c_values::{Parts, Value, number, wrap};
use hx_io::{Failed, Sink, Source};

/// The low 8 bits of a value.
pub fn low_byte(v: &Value) -> u8
    ensures { result ≡ low_bits 8 (number_in v.now) }
{
    wrap(IntTy::U8, number(v)) as u8
}

/// The low 8 bits of a service's argument.
fn first_byte(arguments: &Parts<Value>) -> u8
    ensures { result ≡ low_bits 8 (first_number arguments.now) }
{
    match arguments.as_slice().first() {
        Some(v) => low_byte(v),
        None => 0,
    }
}

/// Puts a byte.
fn put_byte<O: Sink>(byte: u8, out: &mut O) -> Result<Value, Failed>
    ensures given { IfOk result (λ v. v ≡ Value.Number (pos 0)) }
    ensures puts { IsTrue (O.tells out.old) → Puts (O.bytes out.old) (byte ∷ []) result (O.bytes out.new) }
    ensures told { O.tells out.new ≡ O.tells out.old }
    ensures counted { O.faults out.old ≤ O.faults out.new }
    ensures fails { OnErr result (Rose (O.faults out.old) (O.faults out.new)) }
{
    out.put(&[byte])?;
    Ok(Value::Number(0))
}

fn byte_value(byte: u8) -> Value
    ensures { result ≡ Value.Number (pos byte) }
{
    Value::Number(byte as i128)
}

/// Takes the next byte, or gives -1 at the end.
fn get_byte<I: Source>(store: &mut Store, input: &mut I) -> Result<Value, MeanFail>
    ensures takes { IsTrue (I.tells input.old) → TakesByte (I.left input.old) store.old result (I.left input.new) store.new }
    ensures told { I.tells input.new ≡ I.tells input.old }
    ensures counted { I.faults input.old ≤ I.faults input.new }
    ensures fails { IsErrOf result MeanFail.ReadFault → Rose (I.faults input.old) (I.faults input.new) }
    ensures others { IsErrOf result MeanFail.WriteFault → ⊥ }
{
    match input.next() {
        Ok(Some(byte)) => match store.count_taken() {
            Ok(()) => Ok(byte_value(byte)),
            Err(_) => Err(MeanFail::NoMemory),
        },
        Ok(None) => Ok(Value::Number(-1)),
        Err(_) => Err(MeanFail::ReadFault),
    }
}

/// A service with its arguments.
pub fn serve<'a, I: Source, O: Sink>(
    service: Service,
    arguments: &Parts<Value>,
    machine: &mut Machine<'a>,
    input: &mut I,
    out: &mut O,
) -> Result<Now<'a>, MeanFail>
    ensures ties { IsTrue (I.tells input.old) → IfOk result (λ n. (m : Setting) (run : Stand) (whole first : List ℕ) → Ties m run whole (I.left input.old) (O.tells out.old) first (O.bytes out.old) (Now.Calling (Called.Service service) arguments.now) machine.old → Ties m run whole (I.left input.new) (O.tells out.new) first (O.bytes out.new) n machine.new) }
    ensures breaks { IsTrue (I.tells input.old) → OnErr result ((m : Setting) (run : Stand) (whole first : List ℕ) → Ties m run whole (I.left input.old) (O.tells out.old) first (O.bytes out.old) (Now.Calling (Called.Service service) arguments.now) machine.old → Broke run whole (I.left input.new) (O.tells out.new) first (O.bytes out.new)) }
    ensures stack { machine.new.stack ≡ machine.old.stack }
    ensures less { IfOk result (λ n. Less (Now.Calling (Called.Service service) arguments.now) machine.old n machine.new) }
    ensures left { machine.new.left ≡ machine.old.left }
    ensures told { I.tells input.new ≡ I.tells input.old }
    ensures sink { O.tells out.new ≡ O.tells out.old }
    ensures input_counted { I.faults input.old ≤ I.faults input.new }
    ensures out_counted { O.faults out.old ≤ O.faults out.new }
    ensures reads { IsErrOf result MeanFail.ReadFault → Rose (I.faults input.old) (I.faults input.new) }
    ensures writes { IsErrOf result MeanFail.WriteFault → Rose (O.faults out.old) (O.faults out.new) }
{
    match service {
        Service::PutByte => {
            let Ok(value) = put_byte(first_byte(arguments), out) else {
                return Err(MeanFail::WriteFault);
            };
            Ok(Now::Got(value))
        }
        Service::GetByte => {
            let value = get_byte(&mut machine.store, input)?;
            Ok(Now::Got(value))
        }
        Service::Exit => Ok(Now::Stopped(SourceEnd::Exit(first_byte(arguments)))),
    }
}
