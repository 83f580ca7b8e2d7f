//! The texts of the long help that clap doesn't make of the options: what each task reads and answers, and examples. A
//! line of help has at most 78 columns, of which clap takes ten from the text of an option.

/// The version, which is that of the library (`tests/border.py`).
pub(crate) const VERSION: &str = "0.4.0";

/// Of the option of `show`.
pub(crate) const TRACE: &str = "\
Write in place of the page a line of JSON for each event: its pass,
its kind, its word with the values before and after, and the number
of the pass's call";

/// Of the options of `judge`.
pub(crate) const FOLLOW: &str = "\
Judge the log in parts while it is read, until a part has a fault.
Memory is needed for a part and for the items in the queue. No part
shows an item that is lost or never sent";

pub(crate) const PAGE: &str = "\
Write the answer as a page for a browser that draws the calls. The
page needs no network";

pub(crate) const TIMES: &str = "\
Judge by times alone: the lines of a thread order no calls. A log is
never undecided then, however coarse its clock";

pub(crate) const CAPACITY: &str = "\
The queue holds at most so many items: judge that, and the answer
full";

pub(crate) const SKEW: &str = "\
Each clock may be wrong by N: a call may have begun N earlier and
ended N later";

pub(crate) const FROM: &str = "\
Judge calls that ended at T or later, as in a log that begins late";

pub(crate) const UNTIL: &str = "\
Judge calls that began before T. Those that ended at T or later
haven't returned";

/// The program's own.
pub(crate) const PROGRAM: &str = "\
At a terminal faults and the answers of `judge` have colours, unless NO_COLOR
is set or TERM is dumb.

Examples:
  ccq play PLAN
  ccq audit < RECEIPTS
  ccq show PLAN > page.html
  ccq judge --page LOG > fault.html
  ccq drive --items 100
  echo '{\"accepted\":[[1,1,0,7]],\"taken\":[[1,0,1,1,7]]}' | ccq audit

Exit status:
  0   done, and the verdict is clean
  1   the audit found a fault, or the log's calls aren't linearizable
  2   the plan, the receipts or the log are refused
  3   memory or a thread was refused, or a thread reached its limit
  4   reading or writing failed
  5   the judge is undecided, or a run has too many events to be shown
  64  the command line is refused, or the file of the input can't be opened";

/// What `play` reads and answers.
pub(crate) const PLAY: &str = "\
A plan is a JSON object with the keys:
  version    1, or absent
  capacity   how many items may wait: 1 to 4096
  bound      how many calls one combiner serves in a row: 1 to 1024
  life       how many items are ever accepted: 1 to 281474976710656
  senders    1 to 64 lists of 0 to 65536 calls: a number sends that body,
             \"close\" closes
  receivers  1 to 64 numbers of takes, each 0 to 65536
  schedule   0 to 65536 entries [PASS, EVENTS]: which pass moves next, by up
             to 1 to 100000 steps

PASS is \"s1\" for the first list of senders, \"s2\" for the next, \"r1\" for the
first receiver.

In version 2 there are groups of receivers, each of which gets every item, and
bodies of words:
  version    2
  groups     1 to 8
  senders    as above, but an array of one to four numbers sends the body of
             these words
  receivers  GROUPS times 1 to 64 numbers of takes, group by group

A refused plan has one line on standard error, as `ccq: plan refused: ..`:
  P1         it isn't JSON
  P2         a key is missing or unknown, a value is of another kind, or a
             pass name malformed
  P3 KEY     the value of KEY is out of its range; of `input`: over 16777216
             bytes
  P4 at I    entry I of the schedule, from 0, names a pass that doesn't exist
If standard error is a terminal, a second line has the place of the fault: the
line and the column, the path, what is there, and what is wrong with it. If
memory runs out (P5) the line is `ccq: out of memory`.

Example, in which one item is passed on:
  echo '{\"capacity\":2,\"bound\":2,\"life\":10,\"senders\":[[7]],\"receivers\":[1],
    \"schedule\":[[\"s1\",100],[\"r1\",100]]}' | ccq play";

/// What `audit` reads and answers.
pub(crate) const AUDIT: &str = "\
Receipts are a JSON object with the keys:
  version   1, or absent; or 2, and then BODY is an array of one to four
            numbers
  total     how many items the close returned; null or absent if none is given
  accepted  a row for each accepted send: [SENDER, NUMBER, PLACE, BODY]
  taken     a row for each item taken: [RECEIVER, PLACE, SENDER, NUMBER, BODY]

SENDER is 1 to 64, RECEIVER too, or in version 2 to 512. NUMBER counts the
sends of SENDER, 1 to 4294967295. PLACE counts the accepted items from 0.

The answer is `audit clean`, or `audit fault KIND place PLACE` with the least
place at which a kind holds, and there the least kind:
  1  two accepted rows name the place
  2  two taken rows name it
  3  a taken row names it, and no accepted row does
  4  a taken row and an accepted row name it, with another sender, number or
     body
  5  no taken row names it, and one names a greater place
  6  an accepted row names it, and one of that sender a lower place with no
     lower number
  7  a row names it, and it isn't below the total that is given

Receipts are refused as plans are (see `ccq play --help`), with P1, P2 or
P3 KEY.

Example, in which one item was accepted and taken:
  echo '{\"accepted\":[[1,1,0,7]],\"taken\":[[1,0,1,1,7]]}' | ccq audit";

/// What `judge` reads and answers.
pub(crate) const JUDGE: &str = "\
A log has a JSON object for each call, one a line, 65536 bytes at most:
  thread  a text or a whole number; the lines of one thread are in the order
          of its calls
  begin   a time, a whole number below 2^64
  end     a time from `begin` on; absent if the call hasn't returned
  send    the item: one to four whole numbers in an array, or one without; or
  take    the item that was taken, or null for none or if the call hasn't
          returned; or
  close   true
  answer  full or closed of a send; ended or closed of a take of null

The first line may be {\"begins\":\"late\"}, the last one {\"ends\":\"whole\"} or
{\"ends\":\"early\"}.

The answer is `judge clean: ..`, `judge fault: ..` with the pattern and its
lines, or `judge undecided: ..`. A log that is refused has one line on
standard error, as `ccq: log refused: ..`.

Example, in which one item was sent and taken:
  printf '%s\\n' '{\"thread\":\"a\",\"begin\":1,\"end\":2,\"send\":[7]}' \\
    '{\"thread\":\"b\",\"begin\":3,\"end\":4,\"take\":[7]}' | ccq judge";

/// What `show` reads and answers.
pub(crate) const SHOW: &str = "\
The page draws the run of a plan event by event, forwards and backwards, and
needs no network.

What a plan is: `ccq play --help`. It is refused as there. Exit status 5: the
run has more than 20000 events, and nothing is written. No page is written to
a terminal: exit status 64.

Example, in which one item is passed on:
  echo '{\"capacity\":2,\"bound\":2,\"life\":10,\"senders\":[[7]],\"receivers\":[1],
    \"schedule\":[[\"s1\",100],[\"r1\",100]]}' | ccq show > page.html";

/// What `drive` does and answers.
pub(crate) const DRIVE: &str = "\
Each sender sends the bodies 1 to the number of items, in a thread of its own.
Each receiver takes, in a thread of its own, until the queue has ended. The
queue is closed when all senders are done.

The answer is three lines:
  sent N       how many sends were accepted
  taken N      how many items were taken
  audit clean  the verdict on the receipts of all threads; else the line of a
               fault, as `ccq audit` prints it

A drive measures what the threads received, each item that was sent and each
that was taken, and whether these receipts fit together. It doesn't measure
times, or the order of the threads' steps, which is another in each run.

If standard error is a terminal, a run of two seconds and more shows there how
many calls were answered, and how many in a second; an answer may be that the
queue is full or empty. The line of an interrupted run stays.

A combiner serves as many calls as the bound allows, and hands over to the
next in line. With more threads than processors, a bound below half of a
side's threads is slow: the next in line is often a thread that doesn't run,
and the side waits for it.

Each thread has a stack as large as the limit on stacks (`ulimit -s`); 128 KiB
are enough. At 8 MiB the stacks of 127 threads are 1 GB of address space, of
which little is used, and with what the C library reserves such a run needs up
to 3.5 GB of it on four processors. Under a limit on that (`ulimit -v`) a
thread may be refused; with small stacks 100 MB are enough:
  (ulimit -s 128; ulimit -v 100000
    ccq drive --senders 63 --receivers 64)

Exit status:
  0   done, and the verdict is clean
  1   the audit found a fault
  3   memory or a thread was refused, or a worker reached its limit:
      281474976710656 turns, or 4294967295 sends
  4   writing failed
  64  the command line is refused

Example:
  ccq drive --senders 3 --receivers 2 --items 100 --capacity 4 --bound 2";
