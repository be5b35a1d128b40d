// A write of as many bytes as the permit allows, over any stream. Relies on the rules of `output`.
ghost use Rattle.std.specs.Prelude.{◌≡◌, length};
ghost use Rattle.stream.specs.Meaning.{permit};
ghost use Rattle.stream.specs.WritePermitted.{permitted_answer, permitted_left, Permits};

use crate::error::StreamError;
use crate::output::OutputStream;

// Writes the first bytes up to the permit, and answers how many.
pub fn write_permitted<S: OutputStream>(stream: &mut S, bytes: &[u8]) -> Result<usize, StreamError>
    ensures told { result ≡ permitted_answer S.accepts (permit (S.meaning (S.view stream.old))) (S.checked (S.view stream.old)) bytes.now }
    ensures left { S.view stream.new ≡ permitted_left S.wrote (permit (S.meaning (S.view stream.old))) (S.checked (S.view stream.old)) bytes.now }
{
    let permitted = stream.check_write()?;
    let count = permitted.min(bytes.len());
    if count == 0 {
        return Ok(0);
    }
    write_part(stream, &bytes[..count])?;
    Ok(count)
}

// A write under a permit, which rules a trap out.
fn write_part<S: OutputStream>(stream: &mut S, part: &[u8]) -> Result<(), StreamError>
    requires permitted { Permits (S.meaning (S.view stream.old)) (length part.now) }
    ensures told { result ≡ S.accepts (S.view stream.old) part.now }
    ensures left { S.view stream.new ≡ S.wrote (S.view stream.old) part.now }
{
    match stream.write(part) {
        Err(StreamError::Trap(_)) => unreachable!(),
        answer => answer,
    }
}
