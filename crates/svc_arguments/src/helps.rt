//! The texts of help.

/// The beginning of the program's help: what it is.
pub(crate) const ABOUT: &str =
    "Simulates processing units that run the tasks of one sequential program at once, over caches that
keep speculative versions of its data.

The program is an image: its instructions (RV32I), its data, and the entries at which its run is cut
into tasks. A run prints a summary, one row of two fields a line:

  out,W      a word that the program output, in order
  tasks,K    how many tasks were done, from the first on
  exit,C     the program exited with this code; or
  trap,T     its last task trapped with this number; or
  full,E     no more events were allowed, and the task at this address was next; or
  open,E     the run could go on: the tasks or turns asked for are used up, and the task at this
             address is next

With no arguments, svcsim runs a built-in one-task program.";

/// The end of each subcommand's help: the statuses.
pub(crate) const STATUSES: &str =
    "Exit status: 0 if the image's program exited or a trace is sound, 2 at any other ending, and 1 at a fault,
which standard error names.";

/// The end of the program's own help: the statuses and each fault.
pub(crate) const FAULTS: &str =
    "Exit status: 0 if the image's program exited or a trace is sound, 2 at any other ending, and 1 at a fault,
which standard error names in one line; behind it others say why, where --explain stands behind a
subcommand:

  image fault 1   the image's file ends before its last field does
  image fault 2   it doesn't begin with the letters SVCI, so it is no image
  image fault 3   its version is neither 1 nor 2
  image fault 4   a count is out of range: 1 to 1024 entries; 1 to 65536 text words, data words and turns;
                  at most as many read-only words as data words
  image fault 5   an entry is not above the one before it
  image fault 6   an entry is not a multiple of 4 within the text
  image fault 7   the start is none of the entries
  image fault 8   bytes follow the last data word
  image fault 9   memory was refused for an image that has no other fault
  config fault 1  --units is out of range
  config fault 2  --sets is out of range, or no power of two
  config fault 3  --ways is out of range
  config fault 4  --events is out of range
  config fault 5  --turns is out of range
  plain fault 1   memory was refused for the plain runner
  open fault 1    memory was refused for the machine of a script
  run fault 1     memory was refused for a run
  run fault 2     a thread could not be started
  run fault 3, 4  a bug in svcsim itself: please report it
  report fault 1  memory was refused for a text or its entries
  report fault 2  standard output failed at a summary, a row, a table or a listing
  report fault 3  a script or trace could not be read to its end
  report fault 4 row R column C
                  a trace's first bad row and its first bad column, counted from 1 with the header;
                  column 0 if the number of fields is wrong
  script fault row R column C
                  a script's, likewise
  names fault row R column C
                  that of a table of names, likewise
  explore limit   an exploration met a limit, --states or --events, before it found what --find names
  trace fault 1 at entry 0
                  memory was refused for the replay of a trace
  trace fault 2 at entry I
                  the event of this entry, counted from 0, is refused there, or the entry lacks a number
  trace fault 3 at entry I
                  the event of this entry has another answer there
  file fault      a file could not be read or written, another line could not be printed, a trace has fewer
                  entries than --at or --from says, or memory was refused elsewhere";

/// The end of the help of `assemble`.
pub(crate) const STATUSES_OF_ASSEMBLE: &str =
    "Exit status: 0 if the image was saved, and 1 at a fault, which standard error names.";

/// The end of the help of `explore`.
pub(crate) const STATUSES_OF_EXPLORE: &str =
    "Exit status: 0 if the exploration was whole, 2 if a limit was met, --states or --events, and 1 at a fault,
which standard error names. With --find 0 if it was found, 2 if no schedule shows it, and 1 if a limit was met
before.";

/// The end of the help of `list`.
pub(crate) const STATUSES_OF_LIST: &str =
    "Exit status: 0 if the whole image was printed, and 1 at a fault, which standard error names.";

/// The help of `run`.
pub(crate) const RUN: &str = "Runs an image on the simulated machine, and prints the summary.

The machine has units with private caches. A task is assigned to a unit, takes its turns in bursts, and
is committed once it is the oldest and has ended. Each of these is one event. The summary covers the
committed tasks. Counts of the events follow it: by kind, by supplier of the words read, and by cause of
the squashes.

With --row all this is one row of a table, without the output words: the label, the tasks, the word and
the number of the ending, and the counts. So the rows of many runs join; give one of them --header.

Each unit runs in a thread of its own, so runs differ. With a schedule all units run in one thread, step by
step, and the same options give the same run. A step makes one event: the units are asked in order, and
the first that can make its next move does. --turns then limits the steps. The orders:

  rotate     the unit after the one that moved last, and so on around
  oldest     the unit of the oldest task first: it can always move, so the tasks run one after another, and
             nothing is speculative, on however many units
  youngest   units without a task first, then the youngest task: squashes may cost more events than --events
             allows, so such a run may not end
  random     a unit that is drawn, and so on around

With --after FILE the events of a script come first, in this thread: a refused one is passed over, and take and
give are faults of their rows. The schedule goes on from where they lead, by as many steps as --turns says; the
summary and the trace are of both.

Example: svcsim run sum.svci --schedule rotate --trace sum.csv";

/// The help of `seq`.
pub(crate) const SEQ: &str =
    "Runs an image's tasks one after another on plain memory, and prints the summary.

It has no units, caches or events. Every run of the same image has to agree with it.

Example: svcsim seq sum.svci --tasks 1000000";

/// The help of `depend`.
pub(crate) const DEPEND: &str =
    "Runs an image's tasks one after another as seq does, and prints what they need of one another.

A task needs a word that it loads before it has stored to it; a store of a byte or a half loads its word. The
word comes from the last earlier task that wrote it, if any. The rows, in this order:

  tasks,K                how many tasks were run, from the first on
  exit,C or another      how the run stands, as in a summary
  turns,T                their turns
  needs,N                pairs of a task and a word that it needs
  memory,M               of these, those whose word comes from no task
  nearest,D              how many tasks back the nearest source of a needed word is; 0 if there is none
  units,U                D, and 16 at most; 16 if D is 0
  chain,C                the turns of the longest chain, in which each turn needs the one before: the turn
                         before it in its task, or the last store of a word that it loads first

On U units or fewer no violation ever squashes one of these tasks, whatever the schedule, if it and all active
tasks before it began at their entries in this order.

With --by it prints a table instead, with a row for each task, for each task and one that it needs, or for
each word that a task needs or writes. With --dot it prints a graph for Graphviz, as dot -Tsvg draws it: an
edge from a task to each one that it needs, with the first three words and how many more there are.

With --names a row ends with the name of its entry or word, and an edge has names in place of words, where
the table has them: a CSV text with the header name,address, in order of address and then name.

Example: svcsim depend sum.svci --by task";

/// The help of `explore`.
pub(crate) const EXPLORE: &str =
    "Follows every schedule of a small image, and prints what can be seen in any of them.

From each standing of the machine that was met, each unit makes its next move, as in a run with --schedule,
by at most --burst turns at a time. The rows, in this order:

  states,N     how many standings were told apart
  moves,M      how many moves the units have at those that were followed
  deepest,D    how many moves a schedule has that leads to a standing first
  whole,W      yes: no limit was met, and what isn't printed is never seen, whatever the schedule; or no
  seen,WHAT,TASK,WORD,VALUE,BY,STEPS
               what an entry says happened to which task, and how many moves a schedule has that shows it

WHAT is one of begin, load, store, output, trap, replace, commit, squash. BY says who supplied a word that was
read (hit, reuse, version:T of task T, spill, committed, memory), or why tasks were squashed (violation, guess).

How many standings there are grows fast with the units: begin with two.

With --find only the first row is printed that has this WHAT, and this TASK and WORD where they are given; an
empty TASK is any. The trace of a schedule that shows it can be saved, for check, show and draw.

With --of a trace is replayed in place of all schedules, and what it shows is printed: the same seen rows, each
with the number of the first entry that shows it, counted from 0.

Example: svcsim explore sum.svci --units 2 --find squash --trace squash.csv";

/// The help of `script`.
pub(crate) const SCRIPT: &str =
    "Applies the events of a script to a machine in their order, and prints a line for each, and then the
summary.

A script is a CSV text with the header kind,unit,arg. Its rows are:

  assign,U,E    begins a task on unit U at the entry E
  submit,U,T    runs U's task on by at most T turns (and 63), and submits that burst; if its last turn asks the
                bus, that one counts too
  replace,U,A   removes the line of data word A from U's cache
  cancel,U,     squashes U's task and all after it
  commit,U,     commits the oldest task; U asks for it
  take,U,T      runs U's task on likewise, and keeps that burst to be submitted later
  give,U,       submits the burst kept for U

It has no comments, no spaces and no other columns. An accepted event prints its row of a trace; a refused one
prints refused,N with the number of the refusal. A kept burst prints taken,L,A: its local turns, and 1 if it
asks for the bus, otherwise 0. If there is nothing to keep or to give, none is printed. With --trace the trace
of the accepted events is saved before anything is printed.

Example: svcsim script sum.svci sum.events.csv";

/// The help of `check`.
pub(crate) const CHECK: &str =
    "Replays a trace from a machine before any event, and compares each of its rows.

It prints sound,N for the N rows of a sound trace. Otherwise it names the first faulty row, counted from 0,
as trace fault K at entry I. K is 1 if memory ran out, 2 if the row's event is refused there, and 3 if the
event has another answer. Give the options that the trace was made with.

With --ignore served any supplier of a read is taken, in the columns served and from, and the others are
compared: so a trace of another model of the cache can be sound, which has the same values from other places.

With --script FILE it saves the script that leads to a sound trace, before anything is printed: a step for each
row, a submit with as many turns as the row has, local ones and the one that asked. The subcommand script makes
the same trace of it. For a faulty trace it saves nothing.

Example: svcsim check sum.svci sum.csv --script sum.events.csv";

/// The help of `profile`.
pub(crate) const PROFILE: &str =
    "Replays a trace as check does, and prints what its speculation cost: rows of a name and a count.

It prints how many events and tasks there were, and how many tasks were committed, squashed for each cause,
and still active; the turns, loads and stores of committed, of squashed and of active tasks; how many reads
each supplier served; and how many lines were replaced. For a faulty trace it reports the first fault, as
check does, and no count. Give the options that the trace was made with.

With --by it prints a table instead, with a row for each task that was begun, squashed ones included, for
each unit, or for each word of data that was touched; --by pair has one for each task whose store squashed
another, that task and the word, --by supplier one for each task whose version another read, that task
and the word, and --by pc one for each instruction that asked for a load, a store or an output. With --row it
prints the counts as one row of a table, after a label, so that the rows of many traces join. With --to N it
covers the first N entries, and those after them may be faulty. With --names a row ends with the name of its
entry or word, by a table: a CSV text with the header name,address, in order of address and then name.

Example: svcsim profile sum.svci sum.csv --by task";

/// The help of `show`.
pub(crate) const SHOW: &str =
    "Replays a trace as check does, and prints the machine after its last entry, or with --at N after its
first N entries. Its rows, in this order:

  at,N                   how many entries lead to it
  tasks,K                how many tasks were committed
  due,E                  the entry of the next task to commit; empty once the run has stopped
  guess,E                the entry at which the next assignment should begin; empty once it has stopped
  exit,C or another      how the run stands, as in a summary
  task,J,U,E,T,STATE     an active task, oldest first: its number, its unit, the entry at which it began, and
                         its turns so far. It is running, or has ended: next, exit or trap
  line,U,A,V,BITS        a valid line of unit U, by unit and then word: data word A, its value, and which of
                         the bits VSLCT are set: valid, stored, loaded, committed, stale
  spill,A,V              the oldest task's version of a word whose line was replaced
  memory,A,C,B           a word that is in a line or spilled: what the committed tasks left in it, and what
                         memory itself holds

With --detail there are two more behind a task's row, and one for each word with valid lines behind the spills:

  pc,U,E                 the address of the task's next instruction
  register,U,xN,V        a register of the task whose value isn't the image's
  order,A,U:T,..         the word's lines from the oldest version on: a unit, and its task or committed

With --moves there is a row behind all others for each event that each unit could ask for, whose last field is
the number of its refusal, or empty if it would be accepted:

  move,U,KIND,ARG,R      assign at the guess, submit of one turn, replace of each word that it holds, cancel,
                         commit

With --memory A-B the words A to B have their memory rows also where no line holds them.

With --names a row ends with the name of its entry or word, by a table: a CSV text with the header
name,address, in order of address and then name.

For a faulty trace it reports the first fault, as check does, and no row; with --at N only the first N entries
have to be sound. N past the last entry is a file fault. Give the options that the trace was made with.

Example: svcsim show sum.svci sum.csv --at 4";

/// The help of `draw`.
pub(crate) const DRAW: &str =
    "Replays a trace as check does, and saves a picture of it: one SVG file, which any browser shows.

A lane is a unit, and time goes to the right, one entry of the trace after another. A bar is a task, from its
assignment to its commit or squash; its filling says which. Marks are loads, stores and output words, and a
cross is a replacement. The letter at a word that was read says who supplied it: H hit, R reuse, V version,
S spill, C committed, M memory. A thin arrow goes from the store of a version to a read that received it, a bold
one from a store to the read that came too early, for which it squashed a task. Point at a mark to see its row
of the trace, what that means and the address of its instruction, and at a bar to see which entry decided its
fate, and why. All entries from --from on are shown, or as many as --count says; those after the last one shown
may be faulty. For an earlier fault it reports the first one, as check does, and saves nothing. Give the options
that the trace was made with.

--unit, --task and --word choose what is shown: the bars and marks of these units and tasks, and of loads, stores,
replacements and arrows those of these words. A value stands beside its mark where it has room; --values says that
all do, or none. With --compact lanes are a third as high, and nothing has words, for an overview.

With --names bars and values have the name of their address or word in place of its number, and the text at the
pointer has both, by a table: a CSV text with the header name,address, in order of address and then name.

From 1000 entries on, marks of a kind that stand near one another are drawn as one, and so are short bars of one
fate; point at it to see how many they are. So a file without names should stay below 550 kB, whatever the trace;
such marks have no values. Nothing is printed.

With --rows it saves what the picture shows as rows instead: bar,TASK,UNIT,ADDRESS,FIRST,LAST,FATE for each bar,
mark,ENTRY,UNIT,TASK,KIND,WORD,VALUE,BY for each mark, and arrow,FROM,TO,KIND,WORD for each arrow.

Example: svcsim draw sum.svci sum.csv sum.svg --from 10 --count 20 --word 3";

/// The help of `export`.
pub(crate) const EXPORT: &str =
    "Replays a trace as check does, and saves it for a viewer: one text, in the format that --format names.

chrome is the JSON that Perfetto and chrome://tracing open: a track for each unit, with a slice for each task
and an instant for each load, store, output and replacement, and arrows from a store to a read of its version
and to the read that came too early. vcd is the value changes that GTKWave and Surfer open: for each unit its
task, the entry at which it began and its state, and with --words the committed values of these words.

The clock is the number of the entry, told as microseconds: it is no time. Nothing is printed. For a faulty
trace it reports the first fault, as check does, and saves nothing. Give the options that the trace was made
with.

Example: svcsim export sum.svci sum.csv sum.json --format chrome";

/// The help of `assemble`.
pub(crate) const ASSEMBLE: &str = "Assembles texts of RV32I instructions, and saves the image.

A text is written as for GNU's assembler: labels, instructions and pseudo-instructions, and sections of
data made of numbers, strings and zeros. These directives say what else an image has:

  .svc_entry          the next instruction begins a task (.svc_entry N: of at most N turns)
  .svc_start LABEL    the first task; without it, the first entry
  .svc_limit N        the most turns of a task; without it, 65536
  .svc_register xN,V  the value that a register has at the start of each task; without it, 0
  .svc_readonly       the data so far is read-only
  .svc_version N      the version of the image's format: 1, or 2 where a directive needs it

Several texts are read one behind another and make one image, as if they were linked. A text's names are its
own, unless .globl, .weak or .comm shares them; a name that a text doesn't have is looked for among the shared
ones.

It reports the first fault as FILE:LINE:COLUMN, with what it found there and what it expected, and writes no
file. With --names it also saves the table of the texts' labels, which other subcommands take by --names.

Example: svcsim assemble sum.s sum.svci --names sum.names.csv
Example: svcsim assemble start.s tasks.s tasks.svci";

/// The help of `list`.
pub(crate) const LIST: &str =
    "Prints an image as assembly, from which assemble makes the same image, byte for byte.

Each entry, and each word to which a branch or a jump leads, has a label with its address. A comment after
each word gives its address and, for one of the program, its bits; with --names also the nearest name at or
before the address, by a table: a CSV text with the header name,address, in order of address and then name.

Example: svcsim list sum.svci --names sum.names.csv";
