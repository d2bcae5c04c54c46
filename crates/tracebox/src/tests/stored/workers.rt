//! Workers in rounds: the scenarios of the folder `examples`.

use super::Run;

pub const RUNS: [Run; 6] = [
    Run {
        shows: "a tracer attaches, waits, and ends",
        input: r#"{"version":2,"limit":4,"entries":100,
 "groups":[{"tgid":10,"name":"demo","threads":[{"tid":10,"blocked":[]}],"actions":[]}],
 "workers":[
  {"actor":900,"items":[
    {"do":"attach","tid":10},
    {"do":"wait","tid":10,"until":true},
    {"do":"siginfo","tid":10},
    {"do":"cont","tid":10,"sig":0},
    {"do":"tracer_exit"}]},
  {"actor":10,"items":[
    {"do":"take","tid":10,"until":true}]}]}"#,
        output: "#1 900 attach sent 1 pending\n\
#2 10 take took 10 1 19 0 reported\n\
#3 900 wait waited 10 137f 1\n\
. 900 siginfo info 19 128 0 0\n\
#4 900 cont ok\n\
#5 900 tracer_exit ok\n\
worker 900 entries 4 accepted 1 refused 0 end\n\
worker 10 entries 1 accepted 0 refused 0 end\n\
\n\
Name:\tdemo\n\
State:\tR (running)\n\
Tgid:\t10\n\
Pid:\t10\n\
PPid:\t1\n\
TracerPid:\t0\n\
Threads:\t1\n\
SigQ:\t0/4\n\
SigPnd:\t0000000000000000\n\
ShdPnd:\t0000000000000000\n\
SigBlk:\t0000000000000000\n\
SigIgn:\t0000000000000000\n\
SigCgt:\t0000000000000000\n\
\n\
totals accepted 1 pending 0 merged 0 delivered 0 suppressed 1 flushed 0\n",
    },
    Run {
        shows: "a seized thread is interrupted, stopped and listens",
        input: r#"{"version":2,"limit":4,"entries":100,
 "groups":[{"tgid":10,"name":"demo","threads":[{"tid":10,"blocked":[]}],"actions":[]}],
 "workers":[
  {"actor":900,"items":[
    {"do":"seize","tid":10,"options":[]},
    {"do":"interrupt","tid":10},
    {"do":"wait","tid":10,"until":true},
    {"do":"cont","tid":10,"sig":0},
    {"do":"wait","tid":10,"until":true},
    {"do":"cont","tid":10,"sig":19},
    {"do":"wait","tid":10,"until":true},
    {"do":"listen","tid":10},
    {"do":"wait","tid":10,"until":true},
    {"do":"cont","tid":10,"sig":0},
    {"do":"tracer_exit"}]},
  {"actor":10,"items":[
    {"do":"trap","tid":10,"until":true},
    {"do":"take","tid":10,"until":true},
    {"do":"halt","tid":10,"until":true},
    {"do":"trap","tid":10,"until":true}]},
  {"actor":901,"items":[
    {"do":"kill","tgid":10,"sig":0,"times":4},
    {"do":"kill","tgid":10,"sig":19},
    {"do":"kill","tgid":10,"sig":0,"times":5},
    {"do":"kill","tgid":10,"sig":18}]}]}"#,
        output: "#1 900 seize ok\n\
! 10 trap NotDue\n\
. 901 kill exists\n\
#2 900 interrupt ok\n\
#3 10 trap ok\n\
. 901 kill exists\n\
#4 900 wait waited 10 80057f 1\n\
! 10 take NotRunning\n\
. 901 kill exists\n\
#5 900 cont ok\n\
. 10 take nothing\n\
. 901 kill exists\n\
. 900 wait nothing\n\
. 10 take nothing\n\
#6 901 kill sent 1 pending\n\
. 900 wait nothing\n\
#7 10 take took 10 1 19 0 reported\n\
. 901 kill exists\n\
#8 900 wait waited 10 137f 2\n\
! 10 halt NotDue\n\
. 901 kill exists\n\
#9 900 cont ok\n\
#10 10 halt ok\n\
. 901 kill exists\n\
#11 900 wait waited 10 80137f 3\n\
! 10 trap NotDue\n\
. 901 kill exists\n\
#12 900 listen ok\n\
! 10 trap NotDue\n\
. 901 kill exists\n\
. 900 wait nothing\n\
! 10 trap NotDue\n\
#13 901 kill sent 2 pending\n\
. 900 wait nothing\n\
#14 10 trap ok\n\
#15 900 wait waited 10 80057f 4\n\
#16 900 cont ok\n\
#17 900 tracer_exit ok\n\
worker 900 entries 11 accepted 0 refused 0 end\n\
worker 10 entries 4 accepted 0 refused 6 end\n\
worker 901 entries 2 accepted 2 refused 0 end\n\
\n\
Name:\tdemo\n\
State:\tR (running)\n\
Tgid:\t10\n\
Pid:\t10\n\
PPid:\t1\n\
TracerPid:\t0\n\
Threads:\t1\n\
SigQ:\t1/4\n\
SigPnd:\t0000000000000000\n\
ShdPnd:\t0000000000020000\n\
SigBlk:\t0000000000000000\n\
SigIgn:\t0000000000000000\n\
SigCgt:\t0000000000000000\n\
\n\
totals accepted 2 pending 1 merged 0 delivered 1 suppressed 0 flushed 0\n",
    },
    Run {
        shows: "a tracer restarts each stop with its signal",
        input: r#"{"version":2,"limit":4,"entries":100,
 "groups":[{"tgid":10,"name":"demo","threads":[{"tid":10,"blocked":[]}],"actions":[{"sig":10,"how":"catch"},{"sig":12,"how":"catch"}]}],
 "workers":[
  {"actor":900,"items":[
    {"do":"seize","tid":10,"options":["exit"]},
    {"do":"wait","tid":10,"until":true},
    {"do":"cont","tid":10,"sig":10},
    {"do":"wait","tid":10,"until":true},
    {"do":"cont","tid":10,"sig":12},
    {"do":"wait","tid":10,"until":true},
    {"do":"message","tid":10},
    {"do":"cont","tid":10,"sig":0},
    {"do":"wait","tid":10,"until":true}]},
  {"actor":10,"machine":[
    {"tid":10,"ops":[{"do":"mask","tid":10,"set":[1]},{"do":"exit_group","tid":10,"code":3}]}]},
  {"actor":901,"items":[
    {"do":"kill","tgid":10,"sig":10},
    {"do":"kill","tgid":10,"sig":0,"times":8},
    {"do":"kill","tgid":10,"sig":12}]},
  {"actor":1,"items":[
    {"do":"starter_wait","tgid":0,"untraced":false,"continued":false,"until":true}]}]}"#,
        output: "#1 900 seize ok\n\
! 10 die NotDue\n\
#2 901 kill sent 1 pending\n\
. 1 starter_wait nothing\n\
. 900 wait nothing\n\
! 10 halt NotDue\n\
. 901 kill exists\n\
. 1 starter_wait nothing\n\
. 900 wait nothing\n\
! 10 trap NotDue\n\
. 901 kill exists\n\
. 1 starter_wait nothing\n\
. 900 wait nothing\n\
! 10 finish NotDue\n\
. 901 kill exists\n\
. 1 starter_wait nothing\n\
. 900 wait nothing\n\
#3 10 take took 10 1 10 0 reported\n\
. 901 kill exists\n\
. 1 starter_wait nothing\n\
#4 900 wait waited 10 a7f 1\n\
! 10 die NotDue\n\
. 901 kill exists\n\
. 1 starter_wait nothing\n\
#5 900 cont ok\n\
! 10 halt NotDue\n\
. 901 kill exists\n\
. 1 starter_wait nothing\n\
. 900 wait nothing\n\
! 10 trap NotDue\n\
. 901 kill exists\n\
. 1 starter_wait nothing\n\
. 900 wait nothing\n\
! 10 finish NotDue\n\
. 901 kill exists\n\
. 1 starter_wait nothing\n\
. 900 wait nothing\n\
. 10 take nothing\n\
#6 901 kill sent 2 pending\n\
. 1 starter_wait nothing\n\
. 900 wait nothing\n\
! 10 mask Busy\n\
. 1 starter_wait nothing\n\
. 900 wait nothing\n\
! 10 die NotDue\n\
. 1 starter_wait nothing\n\
. 900 wait nothing\n\
! 10 halt NotDue\n\
. 1 starter_wait nothing\n\
. 900 wait nothing\n\
! 10 trap NotDue\n\
. 1 starter_wait nothing\n\
. 900 wait nothing\n\
! 10 finish NotDue\n\
. 1 starter_wait nothing\n\
. 900 wait nothing\n\
#7 10 take took 10 2 12 0 reported\n\
. 1 starter_wait nothing\n\
#8 900 wait waited 10 c7f 2\n\
! 10 die NotDue\n\
. 1 starter_wait nothing\n\
#9 900 cont ok\n\
! 10 halt NotDue\n\
. 1 starter_wait nothing\n\
. 900 wait nothing\n\
! 10 trap NotDue\n\
. 1 starter_wait nothing\n\
. 900 wait nothing\n\
! 10 finish NotDue\n\
. 1 starter_wait nothing\n\
. 900 wait nothing\n\
. 10 take nothing\n\
. 1 starter_wait nothing\n\
. 900 wait nothing\n\
#10 10 mask ok\n\
. 1 starter_wait nothing\n\
. 900 wait nothing\n\
! 10 die NotDue\n\
. 1 starter_wait nothing\n\
. 900 wait nothing\n\
! 10 halt NotDue\n\
. 1 starter_wait nothing\n\
. 900 wait nothing\n\
! 10 trap NotDue\n\
. 1 starter_wait nothing\n\
. 900 wait nothing\n\
! 10 finish NotDue\n\
. 1 starter_wait nothing\n\
. 900 wait nothing\n\
. 10 take nothing\n\
. 1 starter_wait nothing\n\
. 900 wait nothing\n\
#11 10 exit_group ok\n\
. 1 starter_wait nothing\n\
. 900 wait nothing\n\
#12 10 die ok\n\
. 1 starter_wait nothing\n\
#13 900 wait waited 10 6057f 3\n\
! 10 die NotDue\n\
. 1 starter_wait nothing\n\
. 900 message message 768\n\
! 10 halt NotDue\n\
. 1 starter_wait nothing\n\
#14 900 cont ok\n\
! 10 trap NotDue\n\
. 1 starter_wait nothing\n\
. 900 wait nothing\n\
! 10 finish NotDue\n\
. 1 starter_wait nothing\n\
. 900 wait nothing\n\
! 10 take NotRunning\n\
. 1 starter_wait nothing\n\
. 900 wait nothing\n\
#15 10 die ok\n\
. 1 starter_wait nothing\n\
#16 900 wait waited 10 300 4\n\
! 10 die NotDue\n\
#17 1 starter_wait waited 10 300 5\n\
! 10 halt ESRCH 3\n\
! 10 die ESRCH 3\n\
worker 900 entries 8 accepted 0 refused 0 end\n\
worker 10 entries 6 accepted 0 refused 29 end\n\
worker 901 entries 2 accepted 2 refused 0 end\n\
worker 1 entries 1 accepted 0 refused 0 end\n\
\n\
totals accepted 2 pending 0 merged 0 delivered 2 suppressed 0 flushed 0\n",
    },
    Run {
        shows: "a thread beside the leader executes a program",
        input: r#"{"version":2,"limit":4,"entries":100,
 "groups":[{"tgid":10,"name":"demo","threads":[{"tid":10,"blocked":[]},{"tid":11,"blocked":[]}],"actions":[]}],
 "workers":[
  {"actor":900,"items":[
    {"do":"seize","tid":10,"options":["exec","exit"]},
    {"do":"seize","tid":11,"options":["exec","exit"]},
    {"do":"wait","tid":10,"until":true},
    {"do":"message","tid":10},
    {"do":"cont","tid":10,"sig":0},
    {"do":"wait","tid":10,"until":true},
    {"do":"message","tid":10},
    {"do":"cont","tid":10,"sig":0},
    {"do":"tracer_exit"}]},
  {"actor":11,"items":[
    {"do":"take","tid":11,"times":2},
    {"do":"exec","tid":11},
    {"do":"finish","tid":11,"until":true}]},
  {"actor":10,"items":[
    {"do":"die","tid":10,"until":true},
    {"do":"die","tid":10,"until":true}]}]}"#,
        output: "#1 900 seize ok\n\
. 11 take nothing\n\
! 10 die NotDue\n\
#2 900 seize ok\n\
. 11 take nothing\n\
! 10 die NotDue\n\
. 900 wait nothing\n\
#3 11 exec ok\n\
#4 10 die ok\n\
#5 900 wait waited 10 6057f 1\n\
! 11 finish NotDue\n\
! 10 die NotDue\n\
. 900 message message 0\n\
! 11 finish NotDue\n\
! 10 die NotDue\n\
#6 900 cont ok\n\
! 11 finish NotDue\n\
#7 10 die ok\n\
. 900 wait nothing\n\
#8 11 finish ok\n\
#9 900 wait waited 10 4057f 2\n\
. 900 message message 11\n\
#10 900 cont ok\n\
#11 900 tracer_exit ok\n\
worker 900 entries 7 accepted 0 refused 0 end\n\
worker 11 entries 2 accepted 0 refused 3 end\n\
worker 10 entries 2 accepted 0 refused 4 end\n\
\n\
Name:\tdemo\n\
State:\tR (running)\n\
Tgid:\t10\n\
Pid:\t10\n\
PPid:\t1\n\
TracerPid:\t0\n\
Threads:\t1\n\
SigQ:\t0/4\n\
SigPnd:\t0000000000000000\n\
ShdPnd:\t0000000000000000\n\
SigBlk:\t0000000000000000\n\
SigIgn:\t0000000000000000\n\
SigCgt:\t0000000000000000\n\
\n\
totals accepted 0 pending 0 merged 0 delivered 0 suppressed 0 flushed 0\n",
    },
    Run {
        shows: "a tracer ends, and its tracees are killed",
        input: r#"{"version":2,"limit":4,"entries":100,
 "groups":[{"tgid":10,"name":"demo","threads":[{"tid":10,"blocked":[]},{"tid":11,"blocked":[]}],"actions":[]}],
 "workers":[
  {"actor":900,"items":[
    {"do":"seize","tid":10,"options":["exitkill"]},
    {"do":"seize","tid":11,"options":["exitkill"]},
    {"do":"tracer_exit"}]},
  {"actor":10,"machine":[
    {"tid":10,"ops":[]},
    {"tid":11,"ops":[]}]},
  {"actor":1,"items":[
    {"do":"starter_wait","tgid":0,"untraced":false,"continued":false,"until":true}]}]}"#,
        output: "#1 900 seize ok\n\
! 10 die NotDue\n\
. 1 starter_wait nothing\n\
#2 900 seize ok\n\
! 10 halt NotDue\n\
. 1 starter_wait nothing\n\
#3 900 tracer_exit ok\n\
! 10 trap NotDue\n\
. 1 starter_wait nothing\n\
! 10 finish NotDue\n\
. 1 starter_wait nothing\n\
! 10 take NotRunning\n\
. 1 starter_wait nothing\n\
#4 10 die ok\n\
. 1 starter_wait nothing\n\
#5 10 die ok\n\
#6 1 starter_wait waited 10 9 1\n\
! 10 die ESRCH 3\n\
! 10 die ESRCH 3\n\
! 10 die ESRCH 3\n\
worker 900 entries 3 accepted 2 refused 0 end\n\
worker 10 entries 2 accepted 0 refused 8 end\n\
worker 1 entries 1 accepted 0 refused 0 end\n\
\n\
totals accepted 2 pending 0 merged 0 delivered 2 suppressed 0 flushed 0\n",
    },
    Run {
        shows: "a stop is lost to a KILL",
        input: r#"{"version":2,"limit":4,"entries":100,
 "groups":[{"tgid":10,"name":"demo","threads":[{"tid":10,"blocked":[]}],"actions":[]}],
 "workers":[
  {"actor":900,"items":[
    {"do":"attach","tid":10},
    {"do":"kill","tgid":10,"sig":0,"times":3},
    {"do":"wait","tid":10,"until":true},
    {"do":"cont","tid":10,"sig":0}]},
  {"actor":10,"items":[
    {"do":"take","tid":10,"until":true},
    {"do":"die","tid":10,"until":true}]},
  {"actor":901,"items":[
    {"do":"kill","tgid":10,"sig":0,"times":1},
    {"do":"kill","tgid":10,"sig":9}]},
  {"actor":1,"items":[
    {"do":"starter_wait","tgid":0,"untraced":false,"continued":false,"until":true}]}]}"#,
        output: "#1 900 attach sent 1 pending\n\
#2 10 take took 10 1 19 0 reported\n\
. 901 kill exists\n\
. 1 starter_wait nothing\n\
. 900 kill exists\n\
! 10 die NotDue\n\
#3 901 kill sent 2 delivered\n\
. 1 starter_wait nothing\n\
. 900 kill exists\n\
#4 10 die ok\n\
. 1 starter_wait nothing\n\
. 900 kill exists\n\
. 1 starter_wait nothing\n\
#5 900 wait waited 10 9 2\n\
#6 1 starter_wait waited 10 9 3\n\
! 900 cont ESRCH 3\n\
worker 900 entries 2 accepted 1 refused 1 end\n\
worker 10 entries 2 accepted 0 refused 1 end\n\
worker 901 entries 1 accepted 1 refused 0 end\n\
worker 1 entries 1 accepted 0 refused 0 end\n\
\n\
totals accepted 2 pending 0 merged 0 delivered 1 suppressed 0 flushed 1\n",
    },
];
