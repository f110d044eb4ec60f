//! A view of a group.

ghost use Rattle.std.specs.Prelude.{◌≡◌, ◌+◌, ◌-◌, [], map, None, IfOk, OnOk, OnErr};
ghost use Rattle.zs_members.specs.Members.{NamesAscend, AreThere, count_of, raised, lowered, told, member_of};

use crate::name::name_in;
use std::alloc::{AllocError, Global};
use std::collections::BTreeMap;
use std::collections::btree_map::Iter;
use std::marker::Model;
use zs_sample::Sample;
use zs_wire::SampleKind;

/// How often each name is in a group, as the samples of a subscriber to the group's liveliness tokens tell it.
///
/// Contracts see the names that are there with their counts; the names ascend by their bytes.
#[derive(Drop)]
pub struct View {
    alloc: Global,
    counts: BTreeMap<String, u64>,
}

impl Model for View {
    ghost use Rattle.std.specs.Prelude.{List, ◌<◌, map};
    ghost use Rattle.std.specs.List.{AllByRecursion};
    ghost use Rattle.zs_members.specs.Members.{Member, member_of};

    ghost Value = { List Member };

    ghost view = { λ v. map member_of v.counts.entries };

    ghost invariant = { λ v. AllByRecursion (λ e. 0 < e.1) v.counts.entries };
}

impl View {
    /// Nobody is there.
    pub fn new(alloc: Global) -> View
        ensures { result ≡ [] }
    {
        View {
            alloc,
            counts: BTreeMap::new(alloc),
        }
    }

    /// Each name that is there, with its count. The names ascend by their bytes.
    pub fn iter(&self) -> Iter<'_, String, u64>
        ensures members { map member_of result ≡ self.now }
        ensures ascend { NamesAscend self.now }
        ensures there { AreThere self.now }
    {
        self.counts.iter()
    }

    /// Takes a sample: a put on the key of a name is one more of that name, a deletion one less, and other keys change nothing.
    ///
    /// # Errors
    ///
    /// Want of memory alone, which also stands for a count that can't rise any more; the view is as it was then.
    pub fn take(&mut self, sample: &Sample) -> Result<(), AllocError>
        ensures ok { OnOk result (self.new ≡ told sample.now self.old) }
        ensures err { OnErr result (self.new ≡ self.old) }
    {
        let Some(name) = name_in(sample.key_expr().as_str()) else {
            return Ok(());
        };
        match sample.kind() {
            SampleKind::Put => Ok(self.raise(name)?),
            SampleKind::Delete => {
                self.lower(name);
                Ok(())
            }
        }
    }

    /// The same view, in memory of its own.
    ///
    /// # Errors
    ///
    /// Want of memory alone.
    pub fn try_clone(&self) -> Result<View, AllocError>
        ensures { IfOk result (λ copy. copy ≡ self.now) }
    {
        let counts = self.counts.clone()?;
        Ok(View {
            alloc: self.alloc,
            counts,
        })
    }

    /// Counts one more of a name.
    ///
    /// # Errors
    ///
    /// Want of memory alone, which also stands for a count that can't rise any more; the view is as it was then.
    pub fn raise(&mut self, name: &str) -> Result<(), AllocError>
        ensures ok { OnOk result (self.new ≡ raised name.now self.old) }
        ensures err { OnErr result (self.new ≡ self.old) }
    {
        let Some(count) = self.counts.get_mut(name) else {
            return self.add(name);
        };
        raise_count(count)
    }

    // Counts the first of a name.
    fn add(&mut self, name: &str) -> Result<(), AllocError>
        requires { count_of name.now self.old ≡ 0 }
        ensures ok { OnOk result (self.new ≡ raised name.now self.old) }
        ensures err { OnErr result (self.new ≡ self.old) }
    {
        let name = String::from_str(self.alloc, name)?;
        match self.counts.insert(name, 1) {
            Ok(_old) => Ok(()),
            Err(failed) => {
                drop(failed);
                Err(AllocError)
            }
        }
    }

    // Counts one less of a name, where there is one.
    fn lower(&mut self, name: &str)
        ensures { self.new ≡ lowered name.now self.old }
    {
        let Some(count) = self.counts.get_mut(name) else {
            return;
        };
        if *count > 1 {
            *count -= 1;
            return;
        }
        let _ = self.counts.remove(name);
    }
}

// Raises a count, unless it is at its type's end.
fn raise_count(count: &mut u64) -> Result<(), AllocError>
    ensures ok { OnOk result (count.new ≡ count.old + 1) }
    ensures err { OnErr result (count.new ≡ count.old) }
{
    let Some(more) = count.checked_add(1) else {
        return Err(AllocError);
    };
    *count = more;
    Ok(())
}
