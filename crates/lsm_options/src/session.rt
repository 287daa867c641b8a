//! What a session may be asked: the text of its command `help`, which the help of the program has too.

/// The commands of a session, as `help` lists them.
pub const STORE_COMMANDS: &str = "\
Commands, one a line:
  put K V, del K              Write an operation: 'seq S'
  batch put K V del K ..      Write operations together: 'seq F-L'
  get K [@E.N]                'value V' or 'none', latest or at a snapshot
  scan LO HI LIMIT [@E.N]     The first keys from LO up to HI: 'range C K=V ..'
  snap, release E.N           'snapshot E.N at S', 'released E.N'
  flush                       Bring all operations into tables: 'flushed S'
  compact                     Run the compactions that are due: 'compacted', or 'compacted but for what exceeds the job limits'
  show c                      The files of each level
  stats                       The sequences, what each level has and whether it is due, and how much was written to tables
  help                        This list
  quit, exit                  End the session, as the end of the input does, on a terminal Ctrl-D
Words stand between spaces; %41 is the byte of that hexadecimal number, %20 a space, and \"\" the empty text. A call that is refused
prints 'refused' and why. A faulty line is reported on standard error and skipped; the exit status is then 2. An operation that was
answered is synced in the folder: neither Ctrl-C nor a power cut loses it.";
