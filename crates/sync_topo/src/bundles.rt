ghost use Rattle.std.specs.Prelude.{◌≡◌, [], ◌∷◌, ◌++◌, ◌<◌, ◌^◌, length, List, OnOk, Some, is_some, slice_get};
ghost use Rattle.sync_topo.specs.declared.link.Link.{Link};
ghost use Rattle.sync_topo.specs.Names.{is_named};
ghost use Rattle.sync_topo.specs.private.Kept.{first_beside, AreBundlesOf};

use crate::names::Names;
use std::alloc::Global;
use sync_text::{NoMemory, Text};

/// The bundles of some links: each bundle by its name, with its first link, and each link with the
/// number of its bundle.
#[derive(Drop)]
pub(crate) struct Bundles {
    pub(crate) names: Names,
    /// For each name the first link that names it.
    pub(crate) firsts: Vec<u32>,
    /// For each link the first link of its bundle.
    pub(crate) numbers: Vec<u32>,
}

impl Bundles {
    /// Of no links. It takes no memory.
    pub(crate) fn new(alloc: Global) -> Bundles
        ensures { AreBundlesOf result.names result.firsts.items result.numbers.items [] }
    {
        Bundles {
            names: Names::new(alloc),
            firsts: Vec::new(alloc),
            numbers: Vec::new(alloc),
        }
    }

    /// Room for the bundles of so many links more, of which none need name one.
    pub(crate) fn reserve(&mut self, links: usize) -> Result<(), NoMemory>
        ensures names { self.new.names ≡ self.old.names }
        ensures firsts { self.new.firsts.items ≡ self.old.firsts.items }
        ensures numbers { self.new.numbers.items ≡ self.old.numbers.items }
    {
        self.numbers.reserve_exact(links)?;
        Ok(())
    }

    /// The number of a link's bundle.
    pub(crate) fn bundle_of(&self, link: u32) -> u32
        requires { link < length self.now.numbers.items }
        ensures { slice_get self.now.numbers.items link ≡ Some result }
    {
        self.numbers[link as usize]
    }

    /// The first link of the bundle of a name; `None` where no link names it.
    pub(crate) fn first(&self, name: &[u8]) -> Option<u32>
        requires { length self.now.firsts.items ≡ length self.now.names }
        ensures first { result ≡ first_beside self.now.names self.now.firsts.items name.now }
        ensures found { is_some result ≡ is_named self.now.names name.now }
    {
        let place = self.names.place_of(name)?;
        Some(self.firsts[place])
    }

    /// Takes in one more link, which names this bundle, if it names one.
    pub(crate) fn add(&mut self, bundle: &Option<Text>) -> Result<(), NoMemory>
        requires few { length self.old.numbers.items < 2 ^ 32 }
        requires paired { length self.old.firsts.items ≡ length self.old.names }
        ensures { (links : List Link) (link : Link) → link.bundle ≡ bundle.now
            → AreBundlesOf self.old.names self.old.firsts.items self.old.numbers.items links
            → OnOk result (AreBundlesOf self.new.names self.new.firsts.items
            self.new.numbers.items (links ++ link ∷ [])) }
    {
        let link = self.numbers.len() as u32;
        let Some(name) = bundle else {
            return self.keep(link);
        };
        if let Some(first) = self.first(name.bytes()) {
            return self.keep(first);
        }
        self.names.add(name.bytes())?;
        let Ok(()) = self.firsts.push(link) else {
            return Err(NoMemory);
        };
        self.keep(link)
    }

    /// Keeps the number of one more link's bundle.
    fn keep(&mut self, first: u32) -> Result<(), NoMemory>
        ensures names { self.new.names ≡ self.old.names }
        ensures firsts { self.new.firsts.items ≡ self.old.firsts.items }
        ensures numbers { OnOk result
            (self.new.numbers.items ≡ self.old.numbers.items ++ first ∷ []) }
    {
        let Ok(()) = self.numbers.push(first) else {
            return Err(NoMemory);
        };
        Ok(())
    }
}
