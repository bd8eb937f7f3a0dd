//! The texts of refusals, which no form prints.

use plan_file::PlanFileErr;
use std::test::Fail;
use sync_topo::{Place, PlanErr, Section};
use test_makers::is_printed_as;

pub(crate) const LINK: Place = Place {
    section: Section::Links,
    row: 2,
};

pub(crate) const HEAD: Place = Place {
    section: Section::Head,
    row: 0,
};

#[test]
fn plan_file_refusals_are_printed(rt: HostRuntime) -> Result<(), Fail> {
    for (error, text) in [
        (PlanFileErr::Syntax, "no TOML document"),
        (
            PlanFileErr::Key(HEAD),
            "head: a table has an unknown key, or lacks one",
        ),
        (
            PlanFileErr::Kind(LINK),
            "link 2: a value is of the wrong kind",
        ),
        (
            PlanFileErr::Plan(PlanErr::Twice(LINK)),
            "link 2: a name stands twice",
        ),
    ] {
        assert!(rt; is_printed_as(rt.alloc(), error, text)?);
    }
    Ok(())
}
