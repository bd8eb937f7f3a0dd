//! The names of elements, links, sources, lines and inputs.

ghost use Rattle.std.specs.Prelude.{◌≡◌, ◌↔◌, ℕ, ◌<◌, ◌*◌, ◌++◌, ◌∷◌, false, length, slice_get, Some, IfSome, IfNone, OnOk, OnErr, option_map};
ghost use Rattle.sync_topo.specs.declared.input.InputId.{InputId};
ghost use Rattle.sync_topo.specs.Lines.{line_count, line_name, line_of_name, input_of_name, input_name, IsInput};
ghost use Rattle.sync_topo.specs.Names.{place_of, element_names, link_names, source_names};
ghost use Rattle.sync_topo.specs.WellFormed.{IsWellFormed};
ghost use Rattle.sync_topo.specs.private.Naming.{has_sign, IsCut, line_into};

use crate::input::{InputId, LineId};
use crate::plan::Plan;
use std::alloc::Global;
use sync_text::{NoMemory, Text};

impl Plan {
    /// The element of a name.
    ///
    /// `None` exactly where the plan has no such element. This project's own.
    pub fn element_of_name(&self, name: &[u8]) -> Option<u32>
        ensures well_formed { IsWellFormed self.now }
        ensures place { result ≡ place_of (element_names self.now.elements) name.now }
        ensures exact { (e : ℕ) → (result ≡ Some e)
            ↔ (slice_get (element_names self.now.elements) e ≡ Some name.now) }
        ensures within { IfSome result (λ e. e < length self.now.elements) }
    {
        let place = self.parts.element_names.place_of(name)?;
        Some(place as u32)
    }

    /// The link of a name.
    ///
    /// `None` exactly where the plan has no such link. This project's own.
    pub fn link_of_name(&self, name: &[u8]) -> Option<u32>
        ensures well_formed { IsWellFormed self.now }
        ensures place { result ≡ place_of (link_names self.now.links) name.now }
        ensures exact { (k : ℕ) → (result ≡ Some k)
            ↔ (slice_get (link_names self.now.links) k ≡ Some name.now) }
        ensures within { IfSome result (λ k. k < length self.now.links) }
    {
        let place = self.parts.link_names.place_of(name)?;
        Some(place as u32)
    }

    /// The source of a name.
    ///
    /// `None` exactly where the plan has no such source. This project's own.
    pub fn source_of_name(&self, name: &[u8]) -> Option<u32>
        ensures well_formed { IsWellFormed self.now }
        ensures place { result ≡ place_of (source_names self.now.sources) name.now }
        ensures exact { (j : ℕ) → (result ≡ Some j)
            ↔ (slice_get (source_names self.now.sources) j ≡ Some name.now) }
        ensures within { IfSome result (λ j. j < length self.now.sources) }
    {
        let place = self.parts.source_names.place_of(name)?;
        Some(place as u32)
    }

    /// The line of a name: its link's name, the sign `>` and its receiver's name, as `L1>B`.
    ///
    /// `None` exactly where the plan has no such line. This project's own.
    pub fn line_of_name(&self, name: &[u8]) -> Option<LineId>
        ensures well_formed { IsWellFormed self.now }
        ensures line { option_map (λ line. line.0) result ≡ line_of_name self.now name.now }
        ensures exact { (line : ℕ) → (option_map (λ found. found.0) result ≡ Some line)
            ↔ ((line < line_count self.now) × (line_name self.now line ≡ name.now)) }
        ensures within { IfSome result (λ line. line.0 < line_count self.now) }
    {
        // No name holds the sign and no two links have one name, so what stands before the first
        // sign tells the link.
        let _parts = &self.parts;
        let (link, receiver) = cut_at_sign(name)?;
        let number = self.parts.link_names.place_of(link)?;
        self.line_into(number as u32, receiver)
    }

    /// The line of a link into the element of a name.
    fn line_into(&self, number: u32, receiver: &[u8]) -> Option<LineId>
        requires { number < length self.now.links }
        ensures line { option_map (λ line. line.0) result ≡ line_into self.now number receiver.now }
        ensures within { IfSome result (λ line. line.0 < line_count self.now) }
    {
        let link = self.link(number);
        if self.element(link.b).name.bytes() == receiver {
            Some(LineId(2 * number))
        } else if self.element(link.a).name.bytes() == receiver {
            Some(LineId(2 * number + 1))
        } else {
            None
        }
    }

    /// The input of a name, which is a line's or a source's.
    ///
    /// `None` exactly where the plan has neither a line nor a source of the name. This project's own.
    pub fn input_of_name(&self, name: &[u8]) -> Option<InputId>
        ensures well_formed { IsWellFormed self.now }
        ensures input { result ≡ input_of_name self.now name.now }
        ensures exact { (i : InputId) → (result ≡ Some i)
            ↔ (IsInput self.now i × (input_name self.now i ≡ name.now)) }
        ensures within { IfSome result (IsInput self.now) }
    {
        if let Some(line) = self.line_of_name(name) {
            return Some(InputId::Line(line));
        }
        let source = self.source_of_name(name)?;
        Some(InputId::Source(source))
    }

    /// Puts the name of an input at the end of a text: a line's as `L1>B`, or a source's.
    ///
    /// A refusal leaves the text as it was. This project's own.
    pub fn put_input_name(
        &self,
        alloc: Global,
        out: &mut Text,
        input: InputId,
    ) -> Result<(), NoMemory>
        requires { IsInput self.now input }
        ensures well_formed { IsWellFormed self.now }
        ensures ok { OnOk result (out.new ≡ out.old ++ input_name self.now input) }
        ensures err { OnErr result (out.new ≡ out.old) }
    {
        match input {
            InputId::Line(line) => {
                let mut name = Text::new(alloc);
                name.put(self.link(line.0 / 2).name.bytes())?;
                name.put(b">")?;
                name.put(self.element(self.to(line)).name.bytes())?;
                out.put(name.bytes())
            }
            InputId::Source(source) => out.put(self.source(source).name.bytes()),
        }
    }
}

/// What stands before and after the first sign `>`; `None` where there is none.
fn cut_at_sign(name: &[u8]) -> Option<(&[u8], &[u8])>
    ensures cut { IfSome result (λ parts. IsCut name.now parts.0.now parts.1.now) }
    ensures none { IfNone result (has_sign name.now ≡ false) }
{
    for (i, byte) in name.iter().enumerate() {
        if *byte == b'>' {
            return Some((&name[..i], &name[i + 1..]));
        }
    }
    None
}
