//! The texts of help and the version.

/// The version of the program, and the logic of the kit by which it is proved.
pub const VERSION: &str = "0.1.0 (rattle logic dac8208d650f15bf)";

/// The text below the help of the program.
pub const PROGRAM_HELP: &str = "\
class and read take one file on standard input. No other file is read, and none is written.
new makes the tables of a register in a database file.
apply takes a command document on standard input and changes the register in a database file.
report and export print what the register in a database file holds.
serve answers HTTP for a register in a database file or in memory.

Classes, the first that applies:
  conflicting  audits, trusted publishers or exemptions lead to the version, but it is under a violation
  full         audits and trusted publishers alone lead to it, through no version under a violation
  partial      the last step to it is an audit, but the chain begins with an exemption
  exempted     the version itself is exempted
  unvetted     none of these

An exemption may have a last day. Once the register's day is after it, the exemption has lapsed and no longer counts.
Only the command set-day changes the register's day, to the day of that command.

Exit status:
  0  the answer was printed: a class, whichever it is, counts, an outcome, a report, a file, or that a register was made
     or served
  1  the words or the file were refused, a read or a write failed, or the network was lost
  2  the words are no command, or ask for help or the version; nothing is read or made

Example:
  vetd class serde 1.0.0 safe-to-deploy < supply-chain/audits.toml";

/// The text below the help of `class`.
pub const CLASS_HELP: &str = "\
Reads an audits file: its criteria, and its audits and violations of the package.
config.toml and imports.lock are not read, so exemptions, policies, imports and publishers do not count.

Example:
  vetd class serde 1.0.0 safe-to-deploy < supply-chain/audits.toml";

/// The text below the help of `read`.
pub const READ_HELP: &str = "\
Prints how many criteria, entries, publishers, policies and peers the file has, and then how many unknown keys, skipped
entries and doubles were ignored.

Example:
  vetd read audits < supply-chain/audits.toml";

/// The text below the help of `new`.
pub const NEW_HELP: &str = "\
Makes the tables of an empty register and prints created. The file is made if there is none. What other programs have
in the database stays. The file PATH-wal belongs to the register: copy both files, or neither.

Refused 31: a table, an index or a view has the name of one of the register's tables, as where a register is already.
Refused 30: the file is no database, is in use, or can't be made.

Example:
  vetd new --db register.db";

/// The text below the help of `export`.
pub const EXPORT_HELP: &str = "\
Prints the file of that kind, as `vetd read` reads it. Exemptions with a last day are in no file.
Nothing is read from standard input, and nothing is written to the database, except that tables of an earlier vetd are
taken over: that vetd can't open them any more.

Refused 31 if there is no register at PATH, and 30 if no database can be opened there.

Example:
  vetd export --db register.db audits > supply-chain/audits.toml";

/// The text below the help of `apply`.
pub const APPLY_HELP: &str = "\
Reads a command document in TOML: the key command, and the keys of that command.
Prints done, the step, the number of what was made and how many pairs changed class; or already, if it is held.
A refused command changes nothing, except that one refused 29 or 30 may have been saved.
The member matters only to the commands that finish or withdraw a review. The command set-day makes D the register's
day. Tables of an earlier vetd are taken over: that vetd can't open them any more.

Refused 31 if there is no register at PATH, and 30 if no database can be opened there.

Example:
  vetd apply --db register.db --day 2024-05-01 < add-entry.toml";

/// The text below the help of `report`.
pub const REPORT_HELP: &str = "\
Prints how many pairs have each class, the class of each pair, which pairs changed class, the reviews, or the exemptions
with a last day and whether each has lapsed.
Nothing is read from standard input, and nothing is written to the database, except that tables of an earlier vetd are
taken over: that vetd can't open them any more.
Status 0 means that the report was printed, not that all pairs are full.

Refused 31 if there is no register at PATH, and 30 if no database can be opened there.

Example:
  vetd report --db register.db counts";

/// The text below the help of `serve`.
pub const SERVE_HELP: &str = "\
Serves the register in the database file at PATH, or a new one in memory, which ends with the program.
Prints listening on 127.0.0.1:N, and after K connections served M, where M of them got their whole reply.
A connection has one request, one reply and 30 seconds. Without --day the day is that of the clock, in UTC.
Tables of an earlier vetd are taken over: that vetd can't open them any more.
A proxy in front must set the field Vet-Member, and remove it from what comes from outside.

Refused 4 for a bad day, 31 if there is no register at PATH, and 30 if no database can be opened there.
Prints fault: network if the port can't be had or is lost.

Example:
  vetd serve --port 8080 --connections 1000000 --db register.db";
