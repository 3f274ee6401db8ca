//! The words of calls by their names.

ghost use Rattle.std.specs.Prelude.{◌≡◌};
ghost use Rattle.nv_script.specs.Trace.{call_text, word_of};

use crate::call::CallWord;
use nv_core::CallName;

/// The word of a call.
fn word_of(call: CallName) -> CallWord
    ensures { result ≡ word_of call }
{
    match call {
        CallName::Create => CallWord::Create,
        CallName::Mkdir => CallWord::Mkdir,
        CallName::Write => CallWord::Write,
        CallName::Read => CallWord::Read,
        CallName::Size => CallWord::Size,
        CallName::Mode => CallWord::Mode,
        CallName::Stat => CallWord::Stat,
        CallName::List => CallWord::List,
        CallName::Lookup => CallWord::Lookup,
        CallName::Unlink => CallWord::Unlink,
        CallName::Rmdir => CallWord::Rmdir,
        CallName::Rename => CallWord::Rename,
        CallName::Snap => CallWord::Snap,
        CallName::Drop => CallWord::Drop,
        CallName::Show => CallWord::Show,
        CallName::Drain => CallWord::Drain,
        CallName::Fast => CallWord::Fast,
        CallName::Thorough => CallWord::Thorough,
        CallName::Auto => CallWord::Auto,
    }
}

/// A call as scripts spell it.
pub fn call_text(call: CallName) -> &'static [u8]
    ensures { result.now ≡ call_text call }
{
    word_of(call).row().name
}
