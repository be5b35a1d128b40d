// An output stream: first a pollable thing, then the three calls of a hook's output. Relies on `error`.
ghost use Rattle.std.specs.Prelude.{◌≡◌, ℕ, Bool, List, Result};
ghost use Rattle.stream.specs.Meaning.{Meaning, permit, ready, flush_answer, Untouched};
ghost use Rattle.stream.specs.StreamRules.{PermitRule, FlushRule, ClosingRule, KeepingRule};
ghost use Rattle.stream.specs.declared.error.StreamError.{StreamError};

use crate::error::StreamError;

pub trait Pollable {
    // Whether the thing is ready.
    ghost pollable: { Self → Bool };

    fn ready(&self) -> bool
        ensures { result ≡ pollable self.now };
}

pub trait OutputStream: Pollable {
    // What a stream is, as far as any answer depends on it.
    ghost View: { Type 0 };

    ghost view: { Self → View };

    ghost meaning: { View → Meaning };

    // What check_write leaves.
    ghost checked: { View → View };

    // What write answers, and what it leaves.
    ghost accepts: { View → List ℕ → Result (Unit {0}) StreamError };

    ghost wrote: { View → List ℕ → View };

    // What flush leaves.
    ghost flushed: { View → View };

    // Whether a flush was accepted and has not completed.
    ghost flushing: { View → Bool };

    // Holds of the views before and after one host turn.
    ghost turned: { View → View → Type 0 };

    fn check_write(&mut self) -> Result<usize, StreamError>
        ensures told { result ≡ permit (meaning (view self.old)) }
        ensures left { view self.new ≡ checked (view self.old) }
        ensures same { Untouched result self.old self.new };

    fn write(&mut self, bytes: &[u8]) -> Result<(), StreamError>
        ensures told { result ≡ accepts (view self.old) bytes.now }
        ensures left { view self.new ≡ wrote (view self.old) bytes.now }
        ensures same { Untouched result self.old self.new };

    fn flush(&mut self) -> Result<(), StreamError>
        ensures told { result ≡ flush_answer (meaning (view self.old)) }
        ensures left { view self.new ≡ flushed (view self.old) }
        ensures same { Untouched result self.old self.new };

    ghost readiness: { (s : Self) → Self.Pollable.pollable s ≡ ready (meaning (view s)) };

    ghost permits: { PermitRule meaning turned checked accepts };

    ghost flushes: { FlushRule meaning accepts flushed flushing };

    ghost closing: { ClosingRule meaning accepts turned checked wrote flushed };

    ghost keeping: { KeepingRule meaning accepts checked wrote };
}
