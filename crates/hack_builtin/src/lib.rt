//! The text that every program stands on: the interfaces and classes that no file has to declare.
#![tactic(auto)]

ghost use Rattle.std.specs.Prelude.{◌≡◌};
ghost use Rattle.hack_builtin.specs.Builtin.{builtin_text};

/// The builtin text, as bytes: five interfaces and a class, 478 bytes, and an LF at the end of each line
/// (docs/language.md, The builtin text).
#[tactic(auto, unfolding(crate::specs::Builtin::builtin_text))]
pub fn builtin_text() -> &'static str
    ensures { result.now ≡ builtin_text }
{
    concat!(
        "interface Traversable<+Tv> {}\n",
        "interface KeyedTraversable<+Tk, +Tv> extends Traversable<Tv> {}\n",
        "interface Container<+Tv> extends Traversable<Tv> {}\n",
        "interface KeyedContainer<+Tk as arraykey, +Tv>\n",
        "  extends Container<Tv>, KeyedTraversable<Tk, Tv> {}\n",
        "interface Throwable { public function getMessage(): string; }\n",
        "class Exception implements Throwable {\n",
        "  public function __construct(private string $message = '') {}\n",
        "  public function getMessage(): string { return $this->message; }\n",
        "}\n",
    )
}
