//! What a page adds to what is gathered of a leaf.
ghost use Rattle.std.specs.Prelude.{◌≡◌, ◌++◌, OnErr, OnOk, option_map};
ghost use Rattle.mi_solo.specs.States.{split_of};
ghost use Rattle.mi_solo.specs.WorkRows.{gathered_from, gathered_work, is_gathered, work_of};

use crate::cell_keys::mark_past;
use crate::rows::{ActorRow, SplitRow};
use crate::shards::copy_dists;
use mi_base::NoMemory;
use mi_key::{Entry, Interval, Key};
use mi_page::Page;

impl SplitRow {
    /// It has gathered a page more, whose leaf has these keys; where memory is wanted it stays as it was.
    fn gather(&mut self, page: &Page, keys: &Interval, end: Key) -> Result<(), NoMemory>
        requires { page.now.level ≡ 0 }
        ensures ok { OnOk result (work_of self.new ≡ gathered_work keys.now end page.now (work_of self.old)) }
        ensures err { OnErr result (work_of self.new ≡ work_of self.old) }
    {
        add_entries(&mut self.gathered, page, keys, self.mark)?;
        self.mark = mark_past(page.high(), end);
        Ok(())
    }
}

impl ActorRow {
    /// Its split, if it has one, has gathered the page; where memory is wanted it stays as it was.
    pub fn gather(&mut self, page: &Page, keys: &Interval, end: Key) -> Result<(), NoMemory>
        requires { page.now.level ≡ 0 }
        ensures rest { self.new ≡ record self.old { split = self.new.split } }
        ensures ok { OnOk result (split_of self.new.split ≡ option_map (gathered_work keys.now end page.now) (split_of self.old.split)) }
        ensures err { OnErr result (split_of self.new.split ≡ split_of self.old.split) }
    {
        match &mut self.split {
            Some(work) => work.gather(page, keys, end),
            None => Ok(()),
        }
    }
}

/// Adds copies of the page's entries without death whose keys are among these, from the mark on.
fn add_entries(
    gathered: &mut Vec<Entry>,
    page: &Page,
    keys: &Interval,
    mark: Key,
) -> Result<(), NoMemory>
    requires { page.now.level ≡ 0 }
    ensures ok { OnOk result (gathered.new.items ≡ gathered.old.items ++ gathered_from keys.now mark page.now.entries) }
    ensures err { OnErr result (gathered.new.items ≡ gathered.old.items) }
{
    gathered.reserve(page.len())?;
    for place in 0..page.len() {
        let entry = page.entry(place);
        if is_gathered(entry, keys, mark) {
            gathered.push_reserved(copy_entry(entry));
        }
    }
    Ok(())
}

/// The entry has no death, and its key is among these, from the mark on.
fn is_gathered(entry: &Entry, keys: &Interval, mark: Key) -> bool
    ensures { result ≡ is_gathered keys.now mark entry.now }
{
    entry.death.is_none() && (keys.has(&entry.key) && mark <= entry.key)
}

/// The same entry again. It takes no memory.
fn copy_entry(entry: &Entry) -> Entry
    ensures { result ≡ entry.now }
{
    Entry {
        key: entry.key,
        vector: entry.vector.copy(),
        dists: copy_dists(&entry.dists),
        birth: entry.birth,
        death: entry.death,
    }
}
