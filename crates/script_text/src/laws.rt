// What a reader of the definitions would expect of them. While more bytes may come, what is settled holds whatever comes.
ghost use Rattle.std.specs.Prelude.{◌≡◌, ◌+◌, ◌++◌, ℕ, Bool, true, false, List, [], Some};
ghost use Rattle.script_text.specs.Heads.{Head, File as FileHead, head_of_line};
ghost use Rattle.script_text.specs.Whole.{StandWhole};
ghost use Rattle.script_text.specs.Spelling.{IsWithinLimits, spelling, IsWithin, command_spelling, lines_of};
ghost use Rattle.script_text.specs.Script.{Found, Broken, next_head, Body, Bad, More, next_body, newlines, Command, File, End, AtBad, One, No, Later, next_command, IsScript};

/// A line is read as a head exactly where it is the head's spelling (docs/script.md, Form).
pub fn heads_are_spelled()
    ensures read { (line : List ℕ) (head : Head) → head_of_line line ≡ Some head
        → IsWithinLimits head × (line ≡ spelling head) }
    ensures spelled { (head : Head) → IsWithinLimits head
        → head_of_line (spelling head) ≡ Some head }
{}

/// A command that is spelled out stands next, whatever comes behind it (docs/script.md, Form).
pub fn commands_are_spelled()
    ensures { (whole : Bool) (line : ℕ) (command : Command) (rest : List ℕ) → IsWithin command
        → next_command whole line (command_spelling command ++ rest)
        ≡ One command line (line + lines_of command) rest }
{}

/// A head that stands next, or a line in no form, stands there whatever comes (docs/script.md, Form).
pub fn heads_are_settled()
    ensures found { (whole : Bool) (line at : ℕ) (bytes more rest : List ℕ) (head : Head)
        → next_head false line bytes ≡ Found head at rest
        → next_head whole line (bytes ++ more) ≡ Found head at (rest ++ more) }
    ensures broken { (whole : Bool) (line at : ℕ) (bytes more : List ℕ)
        → next_head false line bytes ≡ Broken at
        → next_head whole line (bytes ++ more) ≡ Broken at }
{}

/// A body that stands next, or bytes that are none, stand there whatever comes (docs/script.md, Form).
pub fn bodies_are_settled()
    ensures body { (whole : Bool) (len : ℕ) (bytes more body rest : List ℕ)
        → next_body false len bytes ≡ Body body rest
        → next_body whole len (bytes ++ more) ≡ Body body (rest ++ more) }
    ensures bad { (whole : Bool) (len : ℕ) (bytes more : List ℕ) → next_body false len bytes ≡ Bad
        → next_body whole len (bytes ++ more) ≡ Bad }
{}

/// A command that stands next, or the end of the script, stands there whatever comes (docs/script.md, Form).
pub fn commands_are_settled()
    ensures command { (whole : Bool) (line at after : ℕ)
        (bytes more rest : List ℕ) (command : Command)
        → next_command false line bytes ≡ One command at after rest
        → next_command whole line (bytes ++ more) ≡ One command at after (rest ++ more) }
    ensures end { (whole : Bool) (line : ℕ) (bytes more : List ℕ) (end : End)
        → next_command false line bytes ≡ No end
        → next_command whole line (bytes ++ more) ≡ No end }
{}

/// The head of a `file`, and then its body in what was left and what came since, are what stands next in all these bytes
/// (docs/script.md, Form). `whole` and `last` say whether the bytes had ended before and after `more` came.
pub fn files_are_read_in_two()
    ensures body { (whole last : Bool) (line at len : ℕ) (bytes more name body rest left : List ℕ)
        → next_head whole line bytes ≡ Found (FileHead name len) at rest
        → (whole ≡ true → more ≡ []) → (whole ≡ true → last ≡ true)
        → next_body last len (rest ++ more) ≡ Body body left
        → next_command last line (bytes ++ more)
        ≡ One (File name body) at (at + 2 + newlines body) left }
    ensures bad { (whole last : Bool) (line at len : ℕ) (bytes more name rest : List ℕ)
        → next_head whole line bytes ≡ Found (FileHead name len) at rest
        → (whole ≡ true → more ≡ []) → (whole ≡ true → last ≡ true)
        → next_body last len (rest ++ more) ≡ Bad
        → next_command last line (bytes ++ more) ≡ No (AtBad at) }
    ensures waits { (whole : Bool) (line at len : ℕ) (bytes more name rest : List ℕ)
        → next_head whole line bytes ≡ Found (FileHead name len) at rest
        → next_body false len (rest ++ more) ≡ More
        → next_command false line (bytes ++ more) ≡ Later }
{}

/// All bytes are those of a script, and of one alone (docs/script.md, Form).
pub fn one_script()
    ensures some { (line : ℕ) (bytes : List ℕ)
        → (commands : List (ℕ × Command)) × (end : End) × IsScript line bytes commands end }
    ensures one { (line : ℕ) (bytes : List ℕ) (commands others : List (ℕ × Command))
        (end last : End)
        → IsScript line bytes commands end → IsScript line bytes others last
        → (commands ≡ others) × (end ≡ last) }
{}

/// The commands that stand whole in the first bytes of a script are its first commands (docs/script.md, Form).
pub fn whole_commands_come_first()
    ensures { (line : ℕ) (bytes more : List ℕ) (commands all : List (ℕ × Command)) (end : End)
        → StandWhole line bytes commands
        → IsScript line (bytes ++ more) all end
        → (later : List (ℕ × Command)) × (all ≡ commands ++ later) }
{}
