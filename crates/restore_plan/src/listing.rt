//! A list of names, told with moments or without.

ghost use Rattle.std.specs.Prelude.{◌≡◌, length, slice_get};
ghost use Rattle.replica_store.specs.Chain.{names_of};

use replica_store::FileName;
use std::marker::Model;

/// Where the names come from.
#[derive(Clone, Copy)]
pub enum Source<'a> {
    Names(&'a [FileName]),
    Dated(&'a [replica_store::Dated]),
}

/// A list of names that is read in place.
#[derive(Drop)]
pub struct Listing<'a> {
    source: Source<'a>,
}

impl<'a> Model for Listing<'a> {
    ghost use Rattle.std.specs.Prelude.{List};
    ghost use Rattle.replica_store.specs.declared.file_name.FileName.{FileName};
    ghost use Rattle.restore_plan.specs.Listing.{listed};

    ghost Value = { List FileName };

    ghost view = { λ listing. listed listing.source };
}

impl<'a> Listing<'a> {
    /// These names.
    pub fn of_names(names: &'a [FileName]) -> Listing<'a>
        ensures { result ≡ names.now }
    {
        Listing {
            source: Source::Names(names),
        }
    }

    /// The names of these, without their moments.
    pub fn of_dated(dated: &'a [replica_store::Dated]) -> Listing<'a>
        ensures { result ≡ names_of dated.now }
    {
        Listing {
            source: Source::Dated(dated),
        }
    }

    /// How many names there are.
    pub fn len(&self) -> usize
        ensures { result ≡ length self.now }
    {
        match self.source {
            Source::Names(names) => names.len(),
            Source::Dated(dated) => dated.len(),
        }
    }

    /// The name at this place, from 0 on. `None` exactly past the end.
    pub fn get(&self, at: usize) -> Option<FileName>
        ensures { result ≡ slice_get self.now at }
    {
        match self.source {
            Source::Names(names) => names.get(at).copied(),
            Source::Dated(dated) => dated.get(at).map(|dated| dated.name),
        }
    }
}
