use ksh_base::UsageFault;
use ksh_lexer::SyntaxFault;
use shell_thread::ShellEnd;

/// Why a run ended.
#[derive(Clone, Copy, Debug, PartialEq, Eq)]
pub enum Why {
    /// The script ran to its end, or was checked alone and has no fault.
    Meant,
    /// The words have this fault; status 2.
    Usage(UsageFault),
    /// The script's text has this fault; status 2.
    Syntax(SyntaxFault),
    /// The script couldn't be read; status 122.
    SourceFault,
    /// The root spent its budget; status 123.
    Spent,
    /// Memory ran out; status 121.
    Memory,
}

/// How a run ended.
#[derive(Drop)]
pub struct Ended<Po, A> {
    pub status: u8,
    pub why: Why,
    /// The end of the root shell; none exactly where memory ran out before it had a port.
    pub root: Option<ShellEnd<Po, A>>,
}
