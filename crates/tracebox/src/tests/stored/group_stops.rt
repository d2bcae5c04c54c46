//! Pauses, group-stops and what the starter is told of them.

use super::Run;

pub const RUNS: [Run; 7] = [
    Run {
        shows: "a thread pauses",
        input: r#"{"version":1,"limit":4,"entries":1000,"groups":[
{"tgid":10,"name":"demo","threads":[{"tid":10,"blocked":[]}],"actions":[{"sig":10,"how":"catch"}]}],"steps":[
{"actor":10,"do":"pause","tid":10}]}"#,
        output: "#1 10 pause ok\n\
\n\
Name:\tdemo\n\
State:\tS (sleeping)\n\
Tgid:\t10\n\
Pid:\t10\n\
PPid:\t1\n\
TracerPid:\t0\n\
Threads:\t1\n\
SigQ:\t0/4\n\
SigPnd:\t0000000000000000\n\
ShdPnd:\t0000000000000000\n\
SigBlk:\t0000000000000000\n\
SigIgn:\t0000000000000000\n\
SigCgt:\t0000000000000200\n\
\n\
totals accepted 0 pending 0 merged 0 delivered 0 suppressed 0 flushed 0\n",
    },
    Run {
        shows: "a caught signal ends a pause, an ignored one does not",
        input: r#"{"version":1,"limit":4,"entries":1000,"groups":[
{"tgid":10,"name":"demo","threads":[{"tid":10,"blocked":[]}],"actions":[{"sig":10,"how":"catch"}]}],"steps":[
{"actor":10,"do":"pause","tid":10},
{"actor":10,"do":"mask","tid":10,"set":[]},
{"actor":901,"do":"kill","tgid":10,"sig":28},
{"actor":901,"do":"kill","tgid":10,"sig":10},
{"actor":10,"do":"take","tid":10}]}"#,
        output: "#1 10 pause ok\n\
! 10 mask NotRunning\n\
#2 901 kill sent 1 flushed\n\
#3 901 kill sent 2 pending\n\
#4 10 take took 10 2 10 0 caught\n\
\n\
Name:\tdemo\n\
State:\tR (running)\n\
Tgid:\t10\n\
Pid:\t10\n\
PPid:\t1\n\
TracerPid:\t0\n\
Threads:\t1\n\
SigQ:\t0/4\n\
SigPnd:\t0000000000000000\n\
ShdPnd:\t0000000000000000\n\
SigBlk:\t0000000000000000\n\
SigIgn:\t0000000000000000\n\
SigCgt:\t0000000000000200\n\
\n\
totals accepted 2 pending 0 merged 0 delivered 1 suppressed 0 flushed 1\n",
    },
    Run {
        shows: "a thread that paused runs on",
        input: r#"{"version":1,"limit":4,"entries":1000,"groups":[
{"tgid":10,"name":"demo","threads":[{"tid":10,"blocked":[]}],"actions":[{"sig":10,"how":"catch"}]}],"steps":[
{"actor":10,"do":"pause","tid":10},
{"actor":10,"do":"mask","tid":10,"set":[]},
{"actor":901,"do":"kill","tgid":10,"sig":28},
{"actor":901,"do":"kill","tgid":10,"sig":10},
{"actor":10,"do":"take","tid":10},
{"actor":10,"do":"mask","tid":10,"set":[]}]}"#,
        output: "#1 10 pause ok\n\
! 10 mask NotRunning\n\
#2 901 kill sent 1 flushed\n\
#3 901 kill sent 2 pending\n\
#4 10 take took 10 2 10 0 caught\n\
#5 10 mask ok\n\
\n\
Name:\tdemo\n\
State:\tR (running)\n\
Tgid:\t10\n\
Pid:\t10\n\
PPid:\t1\n\
TracerPid:\t0\n\
Threads:\t1\n\
SigQ:\t0/4\n\
SigPnd:\t0000000000000000\n\
ShdPnd:\t0000000000000000\n\
SigBlk:\t0000000000000000\n\
SigIgn:\t0000000000000000\n\
SigCgt:\t0000000000000200\n\
\n\
totals accepted 2 pending 0 merged 0 delivered 1 suppressed 0 flushed 1\n",
    },
    Run {
        shows: "a group stops",
        input: r#"{"version":1,"limit":4,"entries":1000,"groups":[
{"tgid":10,"name":"demo","threads":[{"tid":10,"blocked":[18]},{"tid":11,"blocked":[18]}],"actions":[]}],"steps":[
{"actor":901,"do":"kill","tgid":10,"sig":20},
{"actor":10,"do":"take","tid":10},
{"actor":11,"do":"take","tid":11},
{"actor":10,"do":"halt","tid":10},
{"actor":11,"do":"halt","tid":11}]}"#,
        output: "#1 901 kill sent 1 pending\n\
#2 10 take took 10 1 20 0 stopping\n\
! 11 take Busy\n\
#3 10 halt ok\n\
#4 11 halt ok\n\
\n\
Name:\tdemo\n\
State:\tT (stopped)\n\
Tgid:\t10\n\
Pid:\t10\n\
PPid:\t1\n\
TracerPid:\t0\n\
Threads:\t2\n\
SigQ:\t0/4\n\
SigPnd:\t0000000000000000\n\
ShdPnd:\t0000000000000000\n\
SigBlk:\t0000000000020000\n\
SigIgn:\t0000000000000000\n\
SigCgt:\t0000000000000000\n\
\n\
Name:\tdemo\n\
State:\tT (stopped)\n\
Tgid:\t10\n\
Pid:\t11\n\
PPid:\t1\n\
TracerPid:\t0\n\
Threads:\t2\n\
SigQ:\t0/4\n\
SigPnd:\t0000000000000000\n\
ShdPnd:\t0000000000000000\n\
SigBlk:\t0000000000020000\n\
SigIgn:\t0000000000000000\n\
SigCgt:\t0000000000000000\n\
\n\
totals accepted 1 pending 0 merged 0 delivered 1 suppressed 0 flushed 0\n",
    },
    Run {
        shows: "the starter waits for a stopped group, once",
        input: r#"{"version":1,"limit":4,"entries":1000,"groups":[
{"tgid":10,"name":"demo","threads":[{"tid":10,"blocked":[18]},{"tid":11,"blocked":[18]}],"actions":[]}],"steps":[
{"actor":901,"do":"kill","tgid":10,"sig":20},
{"actor":10,"do":"take","tid":10},
{"actor":11,"do":"take","tid":11},
{"actor":10,"do":"halt","tid":10},
{"actor":11,"do":"halt","tid":11},
{"actor":1,"do":"starter_wait","tgid":0,"untraced":false,"continued":false},
{"actor":1,"do":"starter_wait","tgid":0,"untraced":true,"continued":false},
{"actor":1,"do":"starter_wait","tgid":0,"untraced":true,"continued":false}]}"#,
        output: "#1 901 kill sent 1 pending\n\
#2 10 take took 10 1 20 0 stopping\n\
! 11 take Busy\n\
#3 10 halt ok\n\
#4 11 halt ok\n\
. 1 starter_wait nothing\n\
#5 1 starter_wait waited 10 147f 1\n\
. 1 starter_wait nothing\n\
\n\
Name:\tdemo\n\
State:\tT (stopped)\n\
Tgid:\t10\n\
Pid:\t10\n\
PPid:\t1\n\
TracerPid:\t0\n\
Threads:\t2\n\
SigQ:\t0/4\n\
SigPnd:\t0000000000000000\n\
ShdPnd:\t0000000000000000\n\
SigBlk:\t0000000000020000\n\
SigIgn:\t0000000000000000\n\
SigCgt:\t0000000000000000\n\
\n\
Name:\tdemo\n\
State:\tT (stopped)\n\
Tgid:\t10\n\
Pid:\t11\n\
PPid:\t1\n\
TracerPid:\t0\n\
Threads:\t2\n\
SigQ:\t0/4\n\
SigPnd:\t0000000000000000\n\
ShdPnd:\t0000000000000000\n\
SigBlk:\t0000000000020000\n\
SigIgn:\t0000000000000000\n\
SigCgt:\t0000000000000000\n\
\n\
totals accepted 1 pending 0 merged 0 delivered 1 suppressed 0 flushed 0\n",
    },
    Run {
        shows: "SIGCONT continues a group",
        input: r#"{"version":1,"limit":4,"entries":1000,"groups":[
{"tgid":10,"name":"demo","threads":[{"tid":10,"blocked":[18]},{"tid":11,"blocked":[18]}],"actions":[]}],"steps":[
{"actor":901,"do":"kill","tgid":10,"sig":20},
{"actor":10,"do":"take","tid":10},
{"actor":11,"do":"take","tid":11},
{"actor":10,"do":"halt","tid":10},
{"actor":11,"do":"halt","tid":11},
{"actor":1,"do":"starter_wait","tgid":0,"untraced":false,"continued":false},
{"actor":1,"do":"starter_wait","tgid":0,"untraced":true,"continued":false},
{"actor":1,"do":"starter_wait","tgid":0,"untraced":true,"continued":false},
{"actor":901,"do":"kill","tgid":10,"sig":18}]}"#,
        output: "#1 901 kill sent 1 pending\n\
#2 10 take took 10 1 20 0 stopping\n\
! 11 take Busy\n\
#3 10 halt ok\n\
#4 11 halt ok\n\
. 1 starter_wait nothing\n\
#5 1 starter_wait waited 10 147f 1\n\
. 1 starter_wait nothing\n\
#6 901 kill sent 2 pending\n\
\n\
Name:\tdemo\n\
State:\tR (running)\n\
Tgid:\t10\n\
Pid:\t10\n\
PPid:\t1\n\
TracerPid:\t0\n\
Threads:\t2\n\
SigQ:\t1/4\n\
SigPnd:\t0000000000000000\n\
ShdPnd:\t0000000000020000\n\
SigBlk:\t0000000000020000\n\
SigIgn:\t0000000000000000\n\
SigCgt:\t0000000000000000\n\
\n\
Name:\tdemo\n\
State:\tR (running)\n\
Tgid:\t10\n\
Pid:\t11\n\
PPid:\t1\n\
TracerPid:\t0\n\
Threads:\t2\n\
SigQ:\t1/4\n\
SigPnd:\t0000000000000000\n\
ShdPnd:\t0000000000020000\n\
SigBlk:\t0000000000020000\n\
SigIgn:\t0000000000000000\n\
SigCgt:\t0000000000000000\n\
\n\
totals accepted 2 pending 1 merged 0 delivered 1 suppressed 0 flushed 0\n",
    },
    Run {
        shows: "the starter waits for a continued group",
        input: r#"{"version":1,"limit":4,"entries":1000,"groups":[
{"tgid":10,"name":"demo","threads":[{"tid":10,"blocked":[18]},{"tid":11,"blocked":[18]}],"actions":[]}],"steps":[
{"actor":901,"do":"kill","tgid":10,"sig":20},
{"actor":10,"do":"take","tid":10},
{"actor":11,"do":"take","tid":11},
{"actor":10,"do":"halt","tid":10},
{"actor":11,"do":"halt","tid":11},
{"actor":1,"do":"starter_wait","tgid":0,"untraced":false,"continued":false},
{"actor":1,"do":"starter_wait","tgid":0,"untraced":true,"continued":false},
{"actor":1,"do":"starter_wait","tgid":0,"untraced":true,"continued":false},
{"actor":901,"do":"kill","tgid":10,"sig":18},
{"actor":1,"do":"starter_wait","tgid":0,"untraced":false,"continued":true}]}"#,
        output: "#1 901 kill sent 1 pending\n\
#2 10 take took 10 1 20 0 stopping\n\
! 11 take Busy\n\
#3 10 halt ok\n\
#4 11 halt ok\n\
. 1 starter_wait nothing\n\
#5 1 starter_wait waited 10 147f 1\n\
. 1 starter_wait nothing\n\
#6 901 kill sent 2 pending\n\
#7 1 starter_wait waited 10 ffff 2\n\
\n\
Name:\tdemo\n\
State:\tR (running)\n\
Tgid:\t10\n\
Pid:\t10\n\
PPid:\t1\n\
TracerPid:\t0\n\
Threads:\t2\n\
SigQ:\t1/4\n\
SigPnd:\t0000000000000000\n\
ShdPnd:\t0000000000020000\n\
SigBlk:\t0000000000020000\n\
SigIgn:\t0000000000000000\n\
SigCgt:\t0000000000000000\n\
\n\
Name:\tdemo\n\
State:\tR (running)\n\
Tgid:\t10\n\
Pid:\t11\n\
PPid:\t1\n\
TracerPid:\t0\n\
Threads:\t2\n\
SigQ:\t1/4\n\
SigPnd:\t0000000000000000\n\
ShdPnd:\t0000000000020000\n\
SigBlk:\t0000000000020000\n\
SigIgn:\t0000000000000000\n\
SigCgt:\t0000000000000000\n\
\n\
totals accepted 2 pending 1 merged 0 delivered 1 suppressed 0 flushed 0\n",
    },
];
