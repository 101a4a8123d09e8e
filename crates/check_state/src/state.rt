// The current files.
ghost use Rattle.std.specs.Prelude.{◌≡◌, ◌≢◌, ◌≤◌, ◌+◌, ◌*◌, ℕ, List, [], None, IfOk, IfErr, OnOk, MatchBool, length};
ghost use Rattle.std.specs.FinMap.{get, insert, remove};
ghost use Rattle.hack_base.specs.Files.{Files, Put, Remove, after, count, text};
ghost use Rattle.check_state.specs.declared.edit.EditStop.TheVariants.{NoMemory as NoMemoryStop};
ghost use Rattle.check_state.specs.Edits.{first_files, most_files, most_text, edit_of, IsWithinLimits, twice_names};
ghost use Rattle.check_state.specs.Findings.{AreFirst, IsFirstReport};
ghost use Rattle.check_state.specs.Stands.{Stands, IsRead, HasRoomFor, Accepts, Refuses, StandsAfter, StandsStill, name_count};

use crate::file::File;
use crate::{Edit, EditStop};
use hack_base::Bytes;
use hack_builtin::builtin_text;
use hack_diag::in_report_order;
use hack_names::NamingTable;
use hack_types::{FileDiag, Names, NoMemory};
use std::alloc::Global;
use std::collections::BTreeMap;

/// How many files there may be beside the builtin text (docs/script.md, Limits).
const MOST_FILES: u64 = 65_536;

/// How many bytes they may have together: 64 MiB.
const MOST_TEXT: u64 = 67_108_864;

/// The current files: of each its tree or its fault, and which declaration of each symbol counts.
#[derive(Drop)]
pub struct State {
    // the names in all texts that were read
    pub(crate) names: Names,
    // the files by their names; the builtin text has the empty name
    pub(crate) files: BTreeMap<Bytes, File>,
    // the declarations of all files that have trees
    pub(crate) table: NamingTable,
    // how many bytes the files have, the builtin text not counted
    text: u64,
    // how many of them have a tree and aren't lists of first units
    others: u64,
}

impl State {
    /// The builtin text alone, under the empty name.
    pub fn new(alloc: Global) -> Result<State, NoMemory>
        ensures stands { IfOk result (λ state. Stands state first_files) }
        ensures names { IfOk result (λ state. name_count state ≤ 250) }
    {
        let mut names = Names::new(alloc);
        let file = File::read(alloc, &mut names, builtin_text().as_bytes())?;
        let mut table = NamingTable::new(alloc);
        file.enter(alloc, b"", &mut table)?;
        let mut files = BTreeMap::new(alloc);
        files.insert(Bytes::from_vec(Vec::new(alloc)), file)?;
        Ok(State {
            names,
            files,
            table,
            text: 0,
            others: 0,
        })
    }

    /// Edits one file, and reads it. After a refusal the files are as before; after `NoMemory` the state isn't used again
    /// (docs/script.md, Commands and Limits).
    pub fn edit(&mut self, alloc: Global, edit: Edit) -> Result<(), EditStop>
        requires limits { IsWithinLimits (edit_of edit) }
        requires room { HasRoomFor self.old (edit_of edit) }
        ensures accepted { OnOk result (Accepts self.old (edit_of edit)) }
        ensures edited { OnOk result (StandsAfter self.old self.new (edit_of edit)) }
        ensures refused { IfErr result (Refuses self.old (edit_of edit)) }
        ensures kept { IfErr result (λ stop. stop ≢ NoMemoryStop → StandsStill self.old self.new) }
        ensures names { 2 * name_count self.new
            ≤ 2 * name_count self.old + twice_names (edit_of edit) }
    {
        match edit {
            Edit::Put { name, bytes } => self.put(alloc, Bytes::from_vec(name), &bytes),
            Edit::Drop { name } => self.remove(&Bytes::from_vec(name)),
        }
    }

    /// Whether each file but the builtin text is a list of first units or has no tree (docs/language.md, First units).
    pub fn are_first(&self) -> bool
        ensures { (files : Files) → Stands self.now files
            → MatchBool result (AreFirst files) (AreFirst files → ⊥) }
    {
        self.others == 0
    }

    /// The report of the files (docs/language.md, Reports).
    pub fn report(&self, alloc: Global) -> Result<Vec<FileDiag>, NoMemory>
        ensures { IfOk result (λ report. (files : Files) → Stands self.now files → AreFirst files
            → IsFirstReport files report.items) }
    {
        Ok(in_report_order(self.findings(alloc)?))
    }

    // The file of this name has these bytes from now on.
    fn put(&mut self, alloc: Global, name: Bytes, bytes: &[u8]) -> Result<(), EditStop>
        requires limits { IsWithinLimits (Put name bytes.now) }
        requires room { HasRoomFor self.old (Put name bytes.now) }
        ensures accepted { OnOk result (Accepts self.old (Put name bytes.now)) }
        ensures edited { OnOk result (StandsAfter self.old self.new (Put name bytes.now)) }
        ensures refused { IfErr result (Refuses self.old (Put name bytes.now)) }
        ensures kept { IfErr result (λ stop. stop ≢ NoMemoryStop → StandsStill self.old self.new) }
        ensures names { 2 * name_count self.new ≤ 2 * name_count self.old + length bytes.now + 3 }
    {
        self.limit(&name, bytes)?;
        let file = File::read(alloc, &mut self.names, bytes)?;
        self.take(&name);
        self.add(alloc, name, file)?;
        Ok(())
    }

    // There is no file of this name from now on.
    fn remove(&mut self, name: &Bytes) -> Result<(), EditStop>
        requires limits { IsWithinLimits (Remove name.now) }
        ensures accepted { OnOk result (Accepts self.old (Remove name.now)) }
        ensures edited { OnOk result (StandsAfter self.old self.new (Remove name.now)) }
        ensures refused { IfErr result (Refuses self.old (Remove name.now)) }
        ensures kept { IfErr result (λ stop. stop ≢ NoMemoryStop → StandsStill self.old self.new) }
        ensures names { name_count self.new ≡ name_count self.old }
    {
        if self.take(name) {
            Ok(())
        } else {
            Err(EditStop::NoFile)
        }
    }

    // Refuses bytes that are too many, or that make too many files, under this name.
    fn limit(&self, name: &Bytes, bytes: &[u8]) -> Result<(), EditStop>
        requires { IsWithinLimits (Put name.now bytes.now) }
        ensures accepted { OnOk result (Accepts self.now (Put name.now bytes.now)) }
        ensures refused { IfErr result (Refuses self.now (Put name.now bytes.now)) }
    {
        let before = match self.files.get(name) {
            Some(file) => file.len,
            None => {
                let have = (self.files.len() as u64).saturating_sub(1);
                if have >= MOST_FILES {
                    return Err(EditStop::TooManyFiles { have });
                }
                0
            }
        };
        let others = self.text.saturating_sub(before);
        if others.saturating_add(bytes.len() as u64) > MOST_TEXT {
            return Err(EditStop::TooMuchText { have: self.text });
        }
        Ok(())
    }

    // Takes out the file of this name, and answers whether it was there.
    fn take(&mut self, name: &Bytes) -> bool
        ensures gone { get self.new.table name.now ≡ None }
        ensures there { (files : Files) → Stands self.old files
            → MatchBool result (get files name.now ≢ None) (get files name.now ≡ None) }
        ensures taken { (files : Files) → Stands self.old files → name.now ≢ []
            → Stands self.new (remove files name.now) }
        ensures names { self.new.names ≡ self.old.names }
    {
        self.table.remove_file(name.as_slice());
        match self.files.remove(name) {
            Some(file) => {
                self.text = self.text.saturating_sub(file.len);
                self.others = self.others.saturating_sub(file.others());
                true
            }
            None => false,
        }
    }

    // Adds a file, whose name is new.
    fn add(&mut self, alloc: Global, name: Bytes, file: File) -> Result<(), NoMemory>
        requires { get self.old.table name ≡ None }
        ensures added { OnOk result ((files : Files) (body : List ℕ)
            → Stands self.old files → name ≢ [] → get files name ≡ None
            → IsRead self.old.names body file
            → count (insert files name body) ≤ most_files
            → text (insert files name body) ≤ most_text
            → Stands self.new (insert files name body)) }
        ensures names { self.new.names ≡ self.old.names }
    {
        file.enter(alloc, name.as_slice(), &mut self.table)?;
        self.text = self.text.saturating_add(file.len);
        self.others = self.others.saturating_add(file.others());
        self.files.insert(name, file)?;
        Ok(())
    }
}
