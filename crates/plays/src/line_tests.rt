// The lines of a dispatch and of a refusal, beside those that the rules give.
use crate::steps::time;
use event::{Defect, Dispatch, Fault, Layer, Message, Refusal, Span, Trigger};
use lines::{CueLine, RefusedLine};
use std::test::Fail;

// A dispatch with a message of four bytes.
fn dispatch(position: u64, trigger: Trigger, stream: u8, id: Option<u32>, span: Span) -> Dispatch {
    Dispatch {
        position: time(position),
        trigger,
        stream,
        id,
        span,
        message: Message {
            place: 9,
            length: 4,
            base64: true,
        },
    }
}

// What a dispatch has not is a dash.
#[test]
fn dispatch_lines(rt: HostRuntime) -> Result<(), Fail> {
    let known = Span {
        start: time(3000),
        duration: Some(time(500)),
    };
    let unknown = Span {
        start: time(7000),
        duration: None,
    };
    let cases = [
        (
            dispatch(3000, Trigger::Start, 0, Some(7), known),
            "3000 S 0 7 3000 500 4",
        ),
        (
            dispatch(0, Trigger::Receive, 31, None, unknown),
            "0 R 31 - 7000 - 4",
        ),
    ];
    for (dispatch, text) in cases {
        let line = CueLine { dispatch };
        let shown = format!(in rt.alloc(); "{line}")?;
        assert_eq!(rt; shown.as_str(), text);
    }
    Ok(())
}

// Record and number, and behind 26 the number of the fault.
#[test]
fn refusal_lines(rt: HostRuntime) -> Result<(), Fail> {
    let fault = Fault {
        defect: Defect::Flags,
        place: 40,
        layer: Layer::Reader,
    };
    let cases = [
        (0, Refusal::OutsideMedia, "refused 0 5"),
        (11, Refusal::NotFollowed, "refused 11 19"),
        (4, Refusal::AtFault(fault), "refused 4 26 13"),
    ];
    for (record, refusal, text) in cases {
        let line = RefusedLine { record, refusal };
        let shown = format!(in rt.alloc(); "{line}")?;
        assert_eq!(rt; shown.as_str(), text);
    }
    Ok(())
}
