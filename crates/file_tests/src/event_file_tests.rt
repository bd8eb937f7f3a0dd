//! The texts of refusals, which no form prints.

use event_file::EventErr;
use std::test::Fail;
use test_makers::is_printed_as;

#[test]
fn event_refusals_are_printed(rt: HostRuntime) -> Result<(), Fail> {
    for (error, text) in [
        (EventErr::Header, "the first record isn't the header"),
        (
            EventErr::Fields(1),
            "row 1: not as many fields as the header",
        ),
        (EventErr::Time(2), "row 2: no millisecond up to 86400000"),
        (EventErr::Order(3), "row 3: before the row before it"),
        (EventErr::What(4), "row 4: no word for what happens"),
        (EventErr::Target(5), "row 5: not a target of this word"),
        (EventErr::Value(6), "row 6: not a value of this word"),
        (EventErr::Limit, "more rows than the plan may have"),
        (EventErr::Name(7), "row 7: no name of a case"),
        (
            EventErr::Apart(8),
            "row 8: apart from the other rows of its case",
        ),
    ] {
        assert!(rt; is_printed_as(rt.alloc(), error, text)?);
    }
    Ok(())
}
