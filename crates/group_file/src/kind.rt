// The kinds of parts, and the parts that they name.

ghost use Rattle.std.specs.Prelude.{◌≡◌, ◌<◌, IfSome};
ghost use Rattle.group_file.specs.Kinds.{kind_of, count_of, part_of_name};

use sync_topo::Plan;

/// The kind of a part. This project's own.
#[derive(Clone, Copy, Debug, PartialEq, Eq, Drop)]
pub enum Kind {
    /// `link`.
    Link,
    /// `source`.
    Source,
    /// `element`.
    Element,
}

impl Kind {
    /// The kind that some bytes are the word for. This project's own.
    pub fn of(bytes: &[u8]) -> Option<Kind>
        ensures { result ≡ kind_of bytes.now }
    {
        if bytes == b"link".as_slice() {
            Some(Kind::Link)
        } else if bytes == b"source".as_slice() {
            Some(Kind::Source)
        } else if bytes == b"element".as_slice() {
            Some(Kind::Element)
        } else {
            None
        }
    }

    /// The number of the part of this kind that has the name.
    ///
    /// `None` where the plan has none. This project's own.
    pub fn part_of_name(self, plan: &Plan, name: &[u8]) -> Option<u32>
        ensures part { result ≡ part_of_name plan.now self name.now }
        ensures within { IfSome result (λ part. part < count_of plan.now self) }
    {
        match self {
            Kind::Link => plan.link_of_name(name),
            Kind::Source => plan.source_of_name(name),
            Kind::Element => plan.element_of_name(name),
        }
    }
}
