// The current files, and how many edits and checks there were.
ghost use Rattle.std.specs.Prelude.{◌≡◌, ◌≢◌, ◌≤◌, ◌<◌, ◌+◌, ◌*◌, ◌^◌, ◌-◌, ℕ, IfOk, IfErr, OnOk, length};
ghost use Rattle.script_text.specs.Script as script;
ghost use Rattle.check_state.specs.Stands.{name_count};
ghost use Rattle.hack_serve.specs.Commands.{command_of, IsLineOf};
ghost use Rattle.hack_serve.specs.Session as model;
ghost use Rattle.hack_serve.specs.Session.{first_session, EndsAt};
ghost use Rattle.hack_serve.specs.Running.{StandsFor, HasReplied, IsShort, twice_names};
ghost use Rattle.hack_serve.specs.declared.status.Status.TheVariants.{NoMemory as NoMemoryStatus};

use crate::Status;
use crate::command::Command;
use check_state::{Edit, EditStop, State, room_by_length};
use hack_types::NoMemory;
use script_text::Reply;
use std::alloc::Global;

/// The current files, and the numbers of the last edit and the last check.
#[derive(Drop)]
pub(crate) struct Session {
    state: State,
    edits: u64,
    checks: u64,
}

impl Session {
    /// No file, no edit and no check.
    pub(crate) fn new(alloc: Global) -> Result<Session, NoMemory>
        ensures stands { IfOk result (λ session. StandsFor session first_session) }
        ensures names { IfOk result (λ session. name_count session.state ≤ 250) }
    {
        let state = State::new(alloc)?;
        Ok(Session {
            state,
            edits: 0,
            checks: 0,
        })
    }

    /// Carries a command out, and gives its reply (docs/script.md, Replies). After an error the session isn't used again.
    pub(crate) fn reply(&mut self, alloc: Global, command: Command) -> Result<Reply, Status>
        requires short { IsShort (command_of command) }
        requires room { 2 * name_count self.old.state + twice_names (command_of command)
            ≤ 2 ^ 31 - 2 }
        requires edits { self.old.edits + 1 < 2 ^ 64 }
        requires checks { self.old.checks + 1 < 2 ^ 64 }
        ensures replied { IfOk result (λ reply. (s : model.Session) → StandsFor self.old s
            → HasReplied self.new (command_of command) reply s) }
        ensures ended { IfErr result (λ status. status ≢ NoMemoryStatus
            → (s : model.Session) (line : ℕ) → StandsFor self.old s
            → IsLineOf command line → EndsAt s line (command_of command) status) }
        ensures names { OnOk result
            (2 * name_count self.new.state
            ≤ 2 * name_count self.old.state + twice_names (command_of command)) }
        ensures edits { OnOk result (self.new.edits ≤ self.old.edits + 1) }
        ensures checks { OnOk result (self.new.checks ≤ self.old.checks + 1) }
    {
        match command {
            Command::File { line, name, body } => self.put(alloc, line, name, body),
            Command::Drop { name } => self.remove(alloc, name),
            Command::Check => self.check(alloc),
            Command::Begin => Err(Status::NotBuilt),
            Command::Wait => Err(Status::NotBuilt),
        }
    }

    /// Puts a file, with a command in this line.
    fn put(
        &mut self,
        alloc: Global,
        line: u64,
        name: Vec<u8>,
        body: Vec<u8>,
    ) -> Result<Reply, Status>
        requires short { IsShort (script.File name.items body.items) }
        requires room { 2 * name_count self.old.state + length body.items + 3 ≤ 2 ^ 31 - 2 }
        requires edits { self.old.edits + 1 < 2 ^ 64 }
        ensures replied { IfOk result (λ reply. (s : model.Session) → StandsFor self.old s
            → HasReplied self.new (script.File name.items body.items) reply s) }
        ensures ended { IfErr result (λ status. status ≢ NoMemoryStatus
            → (s : model.Session) → StandsFor self.old s
            → EndsAt s line (script.File name.items body.items) status) }
        ensures names { OnOk result
            (2 * name_count self.new.state
            ≤ 2 * name_count self.old.state + length body.items + 3) }
        ensures edits { OnOk result (self.new.edits ≤ self.old.edits + 1) }
        ensures checks { self.new.checks ≡ self.old.checks }
    {
        // By its length there is room for the names of this text.
        room_by_length();
        match self.state.edit(alloc, Edit::Put { name, bytes: body }) {
            Ok(()) => {
                self.edits += 1;
                Ok(Reply::Edit(self.edits))
            }
            Err(EditStop::TooManyFiles { .. }) => Err(Status::BadScript { line }),
            Err(EditStop::TooMuchText { .. }) => Err(Status::BadScript { line }),
            // A file that is put need not be there.
            Err(EditStop::NoFile) => Err(Status::NoMemory),
            Err(EditStop::NoMemory) => Err(Status::NoMemory),
        }
    }

    /// Takes a file away.
    fn remove(&mut self, alloc: Global, name: Vec<u8>) -> Result<Reply, Status>
        requires short { IsShort (script.Drop name.items) }
        requires edits { self.old.edits + 1 < 2 ^ 64 }
        ensures replied { IfOk result (λ reply. (s : model.Session) → StandsFor self.old s
            → HasReplied self.new (script.Drop name.items) reply s) }
        ensures ended { IfErr result (λ status. status ≡ NoMemoryStatus) }
        ensures names { OnOk result
            (2 * name_count self.new.state ≤ 2 * name_count self.old.state) }
        ensures edits { OnOk result (self.new.edits ≤ self.old.edits + 1) }
        ensures checks { self.new.checks ≡ self.old.checks }
    {
        match self.state.edit(alloc, Edit::Drop { name }) {
            Ok(()) => {
                self.edits += 1;
                Ok(Reply::Edit(self.edits))
            }
            Err(EditStop::NoFile) => Ok(Reply::NoFile),
            // A file that is taken away is never one too many.
            Err(EditStop::TooManyFiles { .. }) => Err(Status::NoMemory),
            Err(EditStop::TooMuchText { .. }) => Err(Status::NoMemory),
            Err(EditStop::NoMemory) => Err(Status::NoMemory),
        }
    }

    /// Reports on the current files.
    fn check(&mut self, alloc: Global) -> Result<Reply, Status>
        requires { self.old.checks + 1 < 2 ^ 64 }
        ensures replied { IfOk result (λ reply. (s : model.Session) → StandsFor self.old s
            → HasReplied self.new script.Check reply s) }
        ensures ended { IfErr result (λ status. status ≢ NoMemoryStatus
            → (s : model.Session) (line : ℕ) → StandsFor self.old s
            → EndsAt s line script.Check status) }
        ensures state { self.new.state ≡ self.old.state }
        ensures edits { self.new.edits ≡ self.old.edits }
        ensures checks { OnOk result (self.new.checks ≤ self.old.checks + 1) }
    {
        if !self.state.are_first() {
            return Err(Status::NotBuilt);
        }
        let report = self.state.report(alloc)?;
        self.checks += 1;
        Ok(Reply::Report(self.checks, report))
    }
}
