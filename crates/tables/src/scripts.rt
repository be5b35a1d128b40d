// Lines with the commands that they say, and answers with their text.
use answers::{Answer, AnswerLines};
use canonical_form::canonical_command;
use handles::Call;
use planned_writer::PlanEntry;
use script::{Command, Lines, next_line, parse_command, parse_limits};
use session::script_text;
use std::process::Abort;
use std::test::Fail;
use stream::StreamError;
use writer::Fault;

fn reads(rt: &impl Abort, line: &[u8], command: Command) {
    assert_eq!(rt;
        parse_command(line),
        Some(command),
        "this line is that command"
    );
}

fn misfits(rt: &impl Abort, line: &[u8]) {
    assert!(rt; parse_command(line).is_none(), "this line is a misfit");
}

#[test]
fn commands_are_read(rt: HostRuntime) {
    reads(&rt, b"w a b", Command::Call(Call::Write(b"a b")));
    reads(&rt, b"w ", Command::Call(Call::Write(b"")));
    reads(&rt, b"c", Command::Call(Call::CheckWrite));
    reads(&rt, b"t", Command::Call(Call::Turn));
    reads(&rt, b"W 007 a b", Command::Call(Call::PollWrite(7, b"a b")));
    reads(&rt, b"W 0 ", Command::Call(Call::PollWrite(0, b"")));
    reads(
        &rt,
        b"D 999999999",
        Command::Call(Call::DropHandle(999999999)),
    );
    reads(&rt, b"p 4096", Command::Plan(PlanEntry::AtMost(4096)));
    reads(&rt, b"r 255", Command::Plan(PlanEntry::Fail(255)));
}

#[test]
fn misfits_are_refused(rt: HostRuntime) {
    let table: [&[u8]; 12] = [
        b"",
        b"w",
        b"c ",
        b"W 0",
        b"W  a",
        b"F 1 ",
        b"D 1234567890",
        b"p 4097",
        b"r 256",
        b"q 1",
        b"r +1",
        b" c",
    ];
    for line in table {
        misfits(&rt, line);
    }
}

#[test]
fn limits_are_two_numbers(rt: HostRuntime) {
    assert_eq!(rt; parse_limits(b"4096 16"), Some((4096, 16)));
    assert_eq!(rt; parse_limits(b"4096"), None);
    assert_eq!(rt; parse_limits(b"4096 16 "), None);
}

#[test]
fn lines_end_at_newlines(rt: HostRuntime) -> Result<(), Fail> {
    let text: &[u8] = b"a\r\n\nb\n";
    let (first, rest) = next_line(text).ok_or("no line")?;
    assert!(rt; first == b"a\r".as_slice());
    assert!(rt; rest == b"\nb\n".as_slice());
    assert!(rt; next_line(b"").is_none());
    assert_eq!(rt; Lines::new(text).count(), 3);
    Ok(())
}

#[test]
fn answers_are_printed(rt: HostRuntime) -> Result<(), Fail> {
    let table: [(Answer, &str); 5] = [
        (Answer::Accepted, "ok"),
        (Answer::Finished(12), "finished 12"),
        (Answer::Refused(7), "e 7"),
        (Answer::Fault(Fault::Device(5)), "e 20 d 5"),
        (Answer::Misfit, "?"),
    ];
    for (answer, text) in table {
        assert!(rt; format!(in rt.alloc(); "{answer}")?.as_str() == text);
    }
    Ok(())
}

#[test]
fn results_are_printed_one_a_line(rt: HostRuntime) -> Result<(), Fail> {
    let accepted: Result<(), StreamError> = Ok(());
    let permit: Result<usize, StreamError> = Ok(12);
    let closed: Result<usize, StreamError> = Err(StreamError::Closed);
    let failed: Result<(), StreamError> = Err(StreamError::LastOperationFailed(Fault::WriteZero));
    let answers = [
        Answer::from(accepted),
        Answer::from(permit),
        Answer::from(closed),
        Answer::from(failed),
    ];
    let text = format!(in rt.alloc(); "{}", AnswerLines(&answers))?;
    assert!(rt; text.as_str() == "ok\n12\ne 21\ne 20 zero\n");
    Ok(())
}

#[test]
fn canonical_text_is_read_back(rt: HostRuntime) -> Result<(), Fail> {
    let command = parse_command(b"W 007 a").ok_or("misfit")?;
    let text = canonical_command(rt.alloc(), &command)?;
    assert!(rt; text.as_slice() == b"W 7 a".as_slice());
    Ok(())
}

#[test]
fn a_script_prints_its_answers(rt: HostRuntime) -> Result<(), Fail> {
    let text = script_text(rt.alloc(), b"4 1\nw ab\nc\nf\nt\nt\nc\n")?;
    assert!(rt; text.as_str() == "ok\n2\nok\nfinished 2\nflushed\n4\n");
    Ok(())
}
