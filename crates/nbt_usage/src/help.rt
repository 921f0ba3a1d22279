//! What the help prints after a command's options; [`crate::advice`] adds what may be refused.
//! `{n}` is clap's line break.

/// What else there is, and how the program ends.
pub const STATUSES: &str =
    "`nbt-look FILE` shows the packets of a pcap or pcapng file, `nbt-look --lines FILE` makes a \
     capture of it, which these{n}commands read on standard input, and `nbt-station` is a station \
     on the network.{n}{n}Exit status: 0 all was done, 1 the input was refused, 2 the command \
     line was bad, 3 a device failed or memory ran out.{n}With 1 and 3 one line, `nbt: ` and the \
     reason, goes to standard error.{n}`nbt help REASON`, as in `nbt help 'bad text 4'`, prints \
     what it means and what to do then; on a terminal it comes by itself.";

/// The form of a name, and how the program ends.
pub const NAME_HELP: &str =
    "The text of a name: up to 15 bytes, the last byte as two hexadecimal digits in angle \
     brackets,{n}then a dot and a label for each part of the scope. A byte that is a space, \
     a dot, an angle bracket, a backslash{n}or not printable is a backslash and two \
     hexadecimal digits.{n}{n}Example: nbt name 'FRED<20>.NETBIOS.COM'{n}{n}Exit status: 0 \
     all was done, 1 the value was refused, 2 the command line was bad, 3 a device failed or \
     memory{n}ran out. With 1 and 3 one line, `nbt: ` and the reason, goes to standard \
     error.{n}{n}What it may say, and what to do then:";

/// The lines of a capture, and how the program ends.
pub const SHOW_HELP: &str =
    "A capture is lines: `137 MOMENT HEX`, `138 MOMENT HEX` or `139 MOMENT HEX` for a \
     payload of that port, `tick MOMENT`{n}for the clock, and empty lines and comments that \
     begin with `#`. MOMENT is in milliseconds; HEX is the payload,{n}two digits a byte, or \
     the word `empty`.{n}{n}Example: nbt build query 0001 'FRED<20>' | nbt show{n}{n}Exit \
     status: 0 all was shown, 1 a line is malformed, 2 the command line was bad, 3 a device \
     failed or memory{n}ran out. With 1 and 3 one line, `nbt: ` and the reason, goes to \
     standard error, and the lines before it are shown.{n}{n}What it may say, and what to do then:";

/// The packets that can be built, and how the program ends.
pub const BUILD_HELP: &str =
    "Port 137: query ID NAME, status ID NAME, registration ID NAME TTL FLAGS ADDRESS, \
     refresh (the same), release ID NAME{n}FLAGS ADDRESS, response ID WORD NAME TYPE TTL HEX, a \
     packet with one answer{n}Port 139: request CALLED CALLING, \
     message HEX, positive, negative CODE, retarget ADDRESS PORT, keepalive{n}Port 138: \
     unique KEY SOURCE DESTINATION HEX MOST, group and broadcast (the same), error KEY CODE, \
     find KEY NAME,{n}found and missing (the same){n}{n}ID, WORD, TYPE and FLAGS are four \
     hexadecimal digits, CODE two; TTL, PORT and MOST (bytes of a piece) decimal{n}numbers; KEY is \
     ADDRESS:PORT/ID; ADDRESS four decimal numbers with dots; HEX two digits a byte, or the \
     word{n}`empty`. Names are as `nbt name` takes them.{n}{n}Example: nbt build --broadcast \
     registration 0002 'FRED<20>' 300000 0000 10.0.0.5{n}{n}Exit status: 0 all was done, 1 \
     an argument was refused, 2 the command line was bad, 3 a device failed or{n}memory ran \
     out. With 1 and 3 one line, `nbt: ` and the reason, goes to standard error.{n}{n}What it \
     may say, and what to do then:";

/// How a capture is replayed, and how the program ends.
pub const REPLAY_HELP: &str =
    "The capture is as `nbt show` takes it. A station at 0.0.0.0:138 takes its payloads of port \
     138. Each line but empty{n}ones and comments has a line in the report: its number, and \
     `passed`, `dropped COUNT`, `kept KEY`, `spoilt KEY`,{n}`delivered KEY KIND SOURCE \
     DESTINATION DATA`, `unheard KEY`, `other` or `refused REASON`; ` error HEX` is the \
     error{n}packet to answer. A key is held, delivered or not, until a tick 2000 milliseconds \
     or more after it came drops it: a{n}capture of many keys needs ticks. A name that is \
     repeated is passed over. One address can fill the table, and then{n}all others are refused: \
     with `--per-source N` it is refused itself after N keys. Choose N above what one sender \
     sends{n}while a key is held: a new key costs alike, whatever N is. There is no such limit by \
     default: with one, it matters{n}which packets of a sender come first.{n}{n}Example: nbt \
     build group 10.0.0.5:138/0001 'JOE<00>' 'FRED<20>' 616263 2 | nbt replay \
     'FRED<20>'{n}{n}Exit status: 0 all was done, 1 a name was refused or a line is malformed, \
     2 the command line was bad, 3 a device{n}failed or memory ran out. With 1 and 3 one line, \
     `nbt: ` and the reason, goes to standard error.{n}{n}What it may say, and what to do then:";

/// What is saved of a capture, and how the program ends.
pub const SAVE_HELP: &str =
    "The capture is as `nbt show` takes it. Fragments of datagrams on port 138 are put together; \
     packets that are refused{n}are passed over. A tick drops each key that came 2000 \
     milliseconds or more before it. The table that is left is{n}printed in hexadecimal, as one \
     line. With `--per-source N` one key more than N of one address is too many.{n}{n}Example: \
     nbt build group 10.0.0.5:138/0001 'JOE<00>' 'FRED<20>' 616263 2 | nbt save{n}{n}Exit \
     status: 0 all was done, 1 a line is malformed or there are too many keys, 2 the command \
     line was bad, 3 a device{n}failed or memory ran out. With 1 and 3 one line, `nbt: ` and the \
     reason, goes to standard error.{n}{n}What it may say, and what to do then:";

/// The tables that are joined, and how the program ends.
pub const MERGE_HELP: &str =
    "Each line is a saved table in hexadecimal, as `nbt save` prints it; the last line may lack \
     its line feed. The join of{n}all tables is printed in hexadecimal, as one line. All lines \
     are judged before any table is joined. `--keys` and{n}`--per-source` hold for each table \
     and for their join.{n}{n}Example: { nbt save < one; nbt save < other; } | nbt \
     merge{n}{n}Exit status: 0 all was done, 1 a line is no table, there is none, or there are \
     too many keys, 2 the command line was{n}bad, 3 a device failed or memory ran out. With 1 \
     and 3 one line, `nbt: ` and the reason, goes to standard error.{n}{n}What it may say, and \
     what to do then:";

/// The tables whose keys are listed, and how the program ends.
pub const LIST_HELP: &str =
    "Each line is a saved table in hexadecimal, as `nbt save` and `nbt merge` print it; the last \
     line may lack its line feed.{n}The tables are joined; `--keys` and `--per-source` hold for \
     each and for their join.{n}Each key that one of them has is a line, ascending:{n}KEY whole \
     KIND SOURCE DESTINATION DATA, a datagram of which all is known;{n}KEY partial KIND SOURCE \
     DESTINATION HELD/END RUNS PLACES, one of which HELD bytes of END are known (`?` where \
     no{n}fragment said how many), in so many runs, at PLACES: 0-4,8-12 are twelve but 4 to 7, - \
     none; more PLACE after them{n}where data is promised to go on there or later;{n}KEY spoilt, \
     one whose fragments contradict \
     each other.{n}All lines are judged before any table is joined.{n}{n}Example: { nbt save < \
     one; nbt save < other; } | nbt list{n}{n}Exit status: 0 all was done, 1 a line is no table, \
     there is none, or there are too many keys, 2 the command{n}line was bad, 3 a device failed \
     or memory ran out. With 1 and 3 one line, `nbt: ` and the reason, goes to{n}standard \
     error.{n}{n}What it may say, and what to do then:";

/// The tables that are compared, and how the program ends.
pub const AGREE_HELP: &str =
    "Two lines, each a saved table in hexadecimal, as `nbt save` prints it; the last line \
     may lack its line feed. With{n}`--list` each key in which they differ has two lines after \
     `different`, ascending: `1 ` and `2 ` with what `nbt list`{n}prints of it in the first and \
     in the second table, or `absent`.{n}{n}Example: { nbt save < one; nbt save < other; } | nbt \
     agree{n}{n}Exit status: 0 the tables are equal, 1 they differ, or the input was \
     refused, 2 the command line was bad, 3 a device{n}failed or memory ran out. With 3, and \
     with 1 where the input was refused, one line, `nbt: ` and the reason, goes \
     to{n}standard error.{n}{n}What it may say, and what to do then:";
