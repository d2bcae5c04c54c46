//! Ends of threads and groups, and who is told.

use super::Run;

pub const RUNS: [Run; 7] = [
    Run {
        shows: "a KILL breaks a ptrace-stop",
        input: r#"{"version":1,"limit":4,"entries":1000,"groups":[
{"tgid":10,"name":"demo","threads":[{"tid":10,"blocked":[]}],"actions":[]}],"steps":[
{"actor":900,"do":"seize","tid":10,"options":[]},
{"actor":901,"do":"kill","tgid":10,"sig":10},
{"actor":10,"do":"take","tid":10},
{"actor":900,"do":"wait","tid":0},
{"actor":901,"do":"kill","tgid":10,"sig":9},
{"actor":10,"do":"die","tid":10},
{"actor":900,"do":"wait","tid":0},
{"actor":900,"do":"cont","tid":10,"sig":0},
{"actor":1,"do":"starter_wait","tgid":0,"untraced":false,"continued":false},
{"actor":901,"do":"kill","tgid":10,"sig":0}]}"#,
        output: "#1 900 seize ok\n\
#2 901 kill sent 1 pending\n\
#3 10 take took 10 1 10 0 reported\n\
#4 900 wait waited 10 a7f 1\n\
#5 901 kill sent 2 delivered\n\
#6 10 die ok\n\
#7 900 wait waited 10 9 2\n\
! 900 cont ESRCH 3\n\
#8 1 starter_wait waited 10 9 3\n\
! 901 kill ESRCH 3\n\
\n\
totals accepted 2 pending 0 merged 0 delivered 1 suppressed 0 flushed 1\n",
    },
    Run {
        shows: "a thread stops at its end, and its code is cut to eight bits",
        input: r#"{"version":1,"limit":4,"entries":1000,"groups":[
{"tgid":10,"name":"demo","threads":[{"tid":10,"blocked":[]}],"actions":[]}],"steps":[
{"actor":900,"do":"seize","tid":10,"options":["exit"]},
{"actor":10,"do":"exit_group","tid":10,"code":259},
{"actor":10,"do":"die","tid":10},
{"actor":900,"do":"wait","tid":0},
{"actor":900,"do":"message","tid":10},
{"actor":900,"do":"cont","tid":10,"sig":0},
{"actor":10,"do":"die","tid":10},
{"actor":900,"do":"wait","tid":0},
{"actor":1,"do":"starter_wait","tgid":0,"untraced":false,"continued":false}]}"#,
        output: "#1 900 seize ok\n\
#2 10 exit_group ok\n\
#3 10 die ok\n\
#4 900 wait waited 10 6057f 1\n\
. 900 message message 768\n\
#5 900 cont ok\n\
#6 10 die ok\n\
#7 900 wait waited 10 300 2\n\
#8 1 starter_wait waited 10 300 3\n\
\n\
totals accepted 0 pending 0 merged 0 delivered 0 suppressed 0 flushed 0\n",
    },
    Run {
        shows: "a tracer ends, and its tracee is killed",
        input: r#"{"version":1,"limit":4,"entries":1000,"groups":[
{"tgid":10,"name":"demo","threads":[{"tid":10,"blocked":[]}],"actions":[]}],"steps":[
{"actor":900,"do":"seize","tid":10,"options":["exitkill"]},
{"actor":901,"do":"kill","tgid":10,"sig":10},
{"actor":10,"do":"take","tid":10},
{"actor":900,"do":"tracer_exit"},
{"actor":10,"do":"die","tid":10},
{"actor":1,"do":"starter_wait","tgid":0,"untraced":false,"continued":false}]}"#,
        output: "#1 900 seize ok\n\
#2 901 kill sent 1 pending\n\
#3 10 take took 10 1 10 0 reported\n\
#4 900 tracer_exit ok\n\
#5 10 die ok\n\
#6 1 starter_wait waited 10 9 2\n\
\n\
totals accepted 2 pending 0 merged 0 delivered 1 suppressed 0 flushed 1\n",
    },
    Run {
        shows: "a signal ends a group",
        input: r#"{"version":1,"limit":4,"entries":1000,"groups":[
{"tgid":10,"name":"demo","threads":[{"tid":10,"blocked":[]}],"actions":[]}],"steps":[
{"actor":901,"do":"kill","tgid":10,"sig":15},
{"actor":10,"do":"take","tid":10},
{"actor":10,"do":"die","tid":10}]}"#,
        output: "#1 901 kill sent 1 pending\n\
#2 10 take took 10 1 15 0 dying\n\
#3 10 die ok\n\
\n\
Name:\tdemo\n\
State:\tZ (zombie)\n\
Tgid:\t10\n\
Pid:\t10\n\
PPid:\t1\n\
TracerPid:\t0\n\
Threads:\t1\n\
SigQ:\t0/4\n\
SigPnd:\t0000000000000000\n\
ShdPnd:\t0000000000000000\n\
SigBlk:\t0000000000000000\n\
SigIgn:\t0000000000000000\n\
SigCgt:\t0000000000000000\n\
\n\
totals accepted 1 pending 0 merged 0 delivered 1 suppressed 0 flushed 0\n",
    },
    Run {
        shows: "a dead thread exists until the starter waits",
        input: r#"{"version":1,"limit":4,"entries":1000,"groups":[
{"tgid":10,"name":"demo","threads":[{"tid":10,"blocked":[]}],"actions":[]}],"steps":[
{"actor":901,"do":"kill","tgid":10,"sig":15},
{"actor":10,"do":"take","tid":10},
{"actor":10,"do":"die","tid":10},
{"actor":901,"do":"kill","tgid":10,"sig":10},
{"actor":901,"do":"kill","tgid":10,"sig":9},
{"actor":1,"do":"starter_wait","tgid":0,"untraced":false,"continued":false},
{"actor":901,"do":"kill","tgid":10,"sig":0}]}"#,
        output: "#1 901 kill sent 1 pending\n\
#2 10 take took 10 1 15 0 dying\n\
#3 10 die ok\n\
#4 901 kill sent 2 flushed\n\
#5 901 kill sent 3 flushed\n\
#6 1 starter_wait waited 10 f 1\n\
! 901 kill ESRCH 3\n\
\n\
totals accepted 3 pending 0 merged 0 delivered 1 suppressed 0 flushed 2\n",
    },
    Run {
        shows: "a KILL comes at an exit stop of a living group",
        input: r#"{"version":1,"limit":4,"entries":1000,"groups":[
{"tgid":10,"name":"demo","threads":[{"tid":10,"blocked":[]}],"actions":[]}],"steps":[
{"actor":900,"do":"seize","tid":10,"options":["exit"]},
{"actor":10,"do":"exit","tid":10,"code":3},
{"actor":900,"do":"wait","tid":0},
{"actor":900,"do":"message","tid":10},
{"actor":901,"do":"kill","tgid":10,"sig":9},
{"actor":900,"do":"cont","tid":10,"sig":0},
{"actor":10,"do":"die","tid":10},
{"actor":900,"do":"wait","tid":0},
{"actor":1,"do":"starter_wait","tgid":0,"untraced":false,"continued":false}]}"#,
        output: "#1 900 seize ok\n\
#2 10 exit ok\n\
#3 900 wait waited 10 6057f 1\n\
. 900 message message 768\n\
#4 901 kill sent 1 delivered\n\
! 900 cont ESRCH 3\n\
#5 10 die ok\n\
#6 900 wait waited 10 9 2\n\
#7 1 starter_wait waited 10 9 3\n\
\n\
totals accepted 1 pending 0 merged 0 delivered 1 suppressed 0 flushed 0\n",
    },
    Run {
        shows: "a KILL comes at an exit stop of a dying group",
        input: r#"{"version":1,"limit":4,"entries":1000,"groups":[
{"tgid":10,"name":"demo","threads":[{"tid":10,"blocked":[]}],"actions":[]}],"steps":[
{"actor":900,"do":"seize","tid":10,"options":["exit"]},
{"actor":10,"do":"exit_group","tid":10,"code":3},
{"actor":10,"do":"die","tid":10},
{"actor":900,"do":"wait","tid":0},
{"actor":901,"do":"kill","tgid":10,"sig":9},
{"actor":10,"do":"die","tid":10},
{"actor":900,"do":"wait","tid":0},
{"actor":1,"do":"starter_wait","tgid":0,"untraced":false,"continued":false}]}"#,
        output: "#1 900 seize ok\n\
#2 10 exit_group ok\n\
#3 10 die ok\n\
#4 900 wait waited 10 6057f 1\n\
#5 901 kill sent 1 delivered\n\
#6 10 die ok\n\
#7 900 wait waited 10 300 2\n\
#8 1 starter_wait waited 10 300 3\n\
\n\
totals accepted 1 pending 0 merged 0 delivered 1 suppressed 0 flushed 0\n",
    },
];
