//! What the program should print.

/// For the script of ten events: a line for each, and the summary.
pub const SCRIPT: &str = "assign,0,0,,,assigned,,0,,,,,
assign,1,12,,,assigned,,12,,,,,
submit,1,,1,1,loaded,0,0,memory,,,,
submit,0,,2,1,stored,0,5,,,violation,1,1
commit,0,,,,committed,,0,,,,,
assign,1,0,,,assigned,,12,,,,,
submit,1,,1,1,loaded,0,5,committed,0,,,
submit,1,,1,1,emitted,,5,,,,,
submit,1,,2,0,ran,,,,,,,
commit,1,,,,committed,,1,,,,,
out,5
tasks,2
exit,5
kind-assign,3
kind-submit,5
kind-replace,0
kind-cancel,0
kind-commit,2
served-hit,0
served-reuse,0
served-version,0
served-spill,0
served-committed,1
served-memory,1
cut-violation,1
cut-guess,0
cut-cancel,0
";

/// For a run of the built-in image on one unit.
pub const RUN: &str = "out,5
tasks,1
exit,5
kind-assign,1
kind-submit,4
kind-replace,0
kind-cancel,0
kind-commit,1
served-hit,1
served-reuse,0
served-version,0
served-spill,0
served-committed,0
served-memory,0
cut-violation,0
cut-guess,0
cut-cancel,0
";

/// For the summary of the run by a schedule that goes on after the ten events, the last of which exits.
pub const SCHEDULE_AFTER: &str = "out,5
tasks,2
exit,5
kind-assign,3
kind-submit,5
kind-replace,0
kind-cancel,0
kind-commit,2
served-hit,0
served-reuse,0
served-version,0
served-spill,0
served-committed,1
served-memory,1
cut-violation,1
cut-guess,0
cut-cancel,0
";

/// For a run of two tasks on four units by a schedule, the youngest task first.
pub const SCHEDULE: &str = "out,5
tasks,2
exit,5
kind-assign,16
kind-submit,36
kind-replace,0
kind-cancel,0
kind-commit,2
served-hit,0
served-reuse,0
served-version,7
served-spill,0
served-committed,0
served-memory,3
cut-violation,5
cut-guess,3
cut-cancel,0
";

/// The same as a row of a table.
pub const RUN_ROW: &str =
    "label,tasks,ending,number,kind-assign,kind-submit,kind-replace,kind-cancel,kind-commit,\
    served-hit,served-reuse,served-version,served-spill,served-committed,served-memory,cut-violation,cut-guess,\
    cut-cancel
a,2,exit,5,16,36,0,0,2,0,0,7,0,0,3,5,3,0
";

/// For both tasks in order.
pub const SEQ: &str = "out,5\ntasks,2\nexit,5\n";

/// For what both tasks need of one another.
pub const DEPEND: &str = "tasks,2
exit,5
turns,9
needs,1
memory,0
nearest,1
units,1
chain,8
";

/// The same, by task.
pub const DEPEND_BY_TASK: &str = "task,entry,turns,needs,memory,nearest,stores,chain
0,0,3,0,0,0,1,3
1,12,6,1,0,1,0,8
";

/// The same, by word.
pub const DEPEND_BY_WORD: &str = "word,readers,writers,nearest
0,1,1,1
";

/// The same, by pairs.
pub const DEPEND_BY_PAIR: &str = "task,on,distance,words
1,0,1,1
";

/// The same, as a graph.
pub const DEPEND_AS_GRAPH: &str = "digraph depend {
  1 -> 0 [label=\"0\"];
}
";

/// The same with names.
pub const DEPEND_NAMED: &str = "digraph depend {
  1 -> 0 [label=\"shared\"];
}
";

/// For what can be seen in all schedules of one unit.
pub const EXPLORE: &str = "states,9
moves,8
deepest,8
whole,yes
seen,begin,0,,0,,1
seen,begin,1,,12,,4
seen,load,1,0,5,committed,5
seen,store,0,0,5,,2
seen,output,1,,5,,6
seen,commit,0,,,,3
seen,commit,1,,,,8
";

/// For the commit of the second task, on one unit.
pub const FIND: &str = "states,9
moves,8
deepest,8
whole,yes
seen,commit,1,,,,8
";

/// For the check of the trace of ten events.
pub const CHECK: &str = "sound,10\n";

/// For the profile of the trace of ten events.
pub const PROFILE: &str = "events,10
tasks-begun,3
tasks-committed,2
tasks-violation,1
tasks-guess,0
tasks-cancel,0
tasks-active,0
turns-committed,9
turns-squashed,2
turns-active,0
loads-committed,1
loads-squashed,1
loads-active,0
stores-committed,1
stores-squashed,0
stores-active,0
served-hit,0
served-reuse,0
served-version,0
served-spill,0
served-committed,1
served-memory,1
replaced,0
";

/// The same as a row of a table.
pub const PROFILE_ROW: &str =
    "label,events,tasks-begun,tasks-committed,tasks-violation,tasks-guess,tasks-cancel,tasks-active,\
    turns-committed,turns-squashed,turns-active,loads-committed,loads-squashed,loads-active,stores-committed,\
    stores-squashed,stores-active,served-hit,served-reuse,served-version,served-spill,served-committed,\
    served-memory,replaced
a,10,3,2,1,0,0,0,9,2,0,1,1,0,1,0,0,0,0,0,0,1,1,0
";

/// What the same cost, by task.
pub const PROFILE_BY_TASK: &str = "task,unit,entry,first,last,turns,loads,stores,fate
0,0,0,0,4,3,0,1,committed
1,1,12,1,3,2,1,0,violation
1,1,12,5,9,6,1,0,committed
";

/// What the same cost, by unit.
pub const PROFILE_BY_UNIT: &str =
    "unit,begun,committed,squashed,turns-committed,turns-squashed,loads,stores
0,1,1,0,3,0,0,1
1,2,1,1,6,2,2,0
2,0,0,0,0,0,0,0
3,0,0,0,0,0,0,0
";

/// What the same cost, by word.
pub const PROFILE_BY_WORD: &str = "word,loads,stores,versions,violations,squashed,turns-squashed
0,2,1,0,1,1,2
";

/// The same cost, by two tasks of which one squashed the other.
pub const PROFILE_BY_PAIR: &str = "storer,victim,word,squashes,turns-squashed
0,1,0,1,2
";

/// The same cost, by two tasks of which one read the other's version.
pub const PROFILE_BY_SUPPLIER: &str = "supplier,reader,word,reads
";

/// The cost by word with names.
pub const PROFILE_NAMED: &str = "word,loads,stores,versions,violations,squashed,turns-squashed,name
0,2,1,0,1,1,2,shared
";

/// For the machine after ten events.
pub const SHOW: &str = "at,10
tasks,2
due,
guess,
exit,5
line,1,0,5,V-LC-
memory,0,5,5
";

/// For the machine after four of them.
pub const SHOW_AT: &str = "at,4
tasks,0
due,0
guess,12
open,0
task,0,0,0,3,next
line,0,0,5,VS---
memory,0,0,0
";

/// The same with names.
pub const SHOW_NAMED: &str = "at,4,
tasks,0,
due,0,first
guess,12,second
open,0,first
task,0,0,0,3,next,first
line,0,0,5,VS---,shared
memory,0,0,0,shared
";

/// For the listing of the sample of two tasks.
pub const LIST: &str = ".svc_version 1
.svc_limit 100
.svc_start at_00000000
at_00000000:
.svc_entry
lui x5, 256\t# 0x00000000 001002b7
addi x1, x0, 5\t# 0x00000004 00500093
sw x1, 0(x5)\t# 0x00000008 0012a023
at_0000000c:
.svc_entry
lui x5, 256\t# 0x0000000c 001002b7
lw x10, 0(x5)\t# 0x00000010 0002a503
addi x17, x0, 1\t# 0x00000014 00100893
ecall\t# 0x00000018 00000073
addi x17, x0, 0\t# 0x0000001c 00000893
ecall\t# 0x00000020 00000073
.data
.word 0\t# 0x00100000
.word 0\t# 0x00100004
";

/// For the same with names.
pub const LIST_NAMED: &str = ".svc_version 1
.svc_limit 100
.svc_start at_00000000
at_00000000:
.svc_entry
lui x5, 256\t# 0x00000000 001002b7 first
addi x1, x0, 5\t# 0x00000004 00500093 first+4
sw x1, 0(x5)\t# 0x00000008 0012a023 first+8
at_0000000c:
.svc_entry
lui x5, 256\t# 0x0000000c 001002b7 second
lw x10, 0(x5)\t# 0x00000010 0002a503 second+4
addi x17, x0, 1\t# 0x00000014 00100893 second+8
ecall\t# 0x00000018 00000073 second+12
addi x17, x0, 0\t# 0x0000001c 00000893 second+16
ecall\t# 0x00000020 00000073 second+20
.data
.word 0\t# 0x00100000 shared
.word 0\t# 0x00100004 shared+4
";

/// For the machine after the first four of the ten events, with all that is shown beside its rows.
pub const SHOW_IN_DETAIL: &str = "at,4
tasks,0
due,0
guess,12
open,0
task,0,0,0,3,next
pc,0,12
register,0,x1,5
register,0,x5,1048576
line,0,0,5,VS---
order,0,0:0
memory,0,0,0
memory,1,0,0
move,0,assign,12,2
move,0,submit,1,8
move,0,replace,0,
move,0,cancel,,14
move,0,commit,,
move,1,assign,12,
move,1,submit,1,3
move,1,cancel,,3
move,1,commit,,
move,2,assign,12,
move,2,submit,1,3
move,2,cancel,,3
move,2,commit,,
move,3,assign,12,
move,3,submit,1,3
move,3,cancel,,3
move,3,commit,,
";

/// For the table of the ten events by instruction.
pub const PROFILE_BY_PC: &str =
    "pc,loads,stores,outputs,loads-squashed,violations-found,violations-suffered
8,0,1,0,0,1,0
16,2,0,0,1,0,1
24,0,0,1,0,0,0
";
