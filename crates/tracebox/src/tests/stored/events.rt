//! Seized tracees, execve(2), and a tracee that listens.

use super::Run;

pub const RUNS: [Run; 9] = [
    Run {
        shows: "a listening tracee is told of SIGCONT",
        input: r#"{"version":1,"limit":4,"entries":1000,"groups":[
{"tgid":10,"name":"demo","threads":[{"tid":10,"blocked":[]}],"actions":[]}],"steps":[
{"actor":900,"do":"seize","tid":10,"options":[]},
{"actor":901,"do":"kill","tgid":10,"sig":19},
{"actor":10,"do":"take","tid":10},
{"actor":900,"do":"wait","tid":0},
{"actor":900,"do":"cont","tid":10,"sig":19},
{"actor":10,"do":"halt","tid":10},
{"actor":900,"do":"wait","tid":0},
{"actor":900,"do":"listen","tid":10},
{"actor":900,"do":"cont","tid":10,"sig":0},
{"actor":901,"do":"kill","tgid":10,"sig":18},
{"actor":10,"do":"trap","tid":10},
{"actor":900,"do":"wait","tid":0}]}"#,
        output: "#1 900 seize ok\n\
#2 901 kill sent 1 pending\n\
#3 10 take took 10 1 19 0 reported\n\
#4 900 wait waited 10 137f 1\n\
#5 900 cont ok\n\
#6 10 halt ok\n\
#7 900 wait waited 10 80137f 2\n\
#8 900 listen ok\n\
! 900 cont ESRCH 3\n\
#9 901 kill sent 2 pending\n\
#10 10 trap ok\n\
#11 900 wait waited 10 80057f 3\n\
\n\
Name:\tdemo\n\
State:\tt (tracing stop)\n\
Tgid:\t10\n\
Pid:\t10\n\
PPid:\t1\n\
TracerPid:\t900\n\
Threads:\t1\n\
SigQ:\t1/4\n\
SigPnd:\t0000000000000000\n\
ShdPnd:\t0000000000020000\n\
SigBlk:\t0000000000000000\n\
SigIgn:\t0000000000000000\n\
SigCgt:\t0000000000000000\n\
\n\
totals accepted 2 pending 1 merged 0 delivered 1 suppressed 0 flushed 0\n",
    },
    Run {
        shows: "a tracee is interrupted, also while it listens",
        input: r#"{"version":1,"limit":4,"entries":1000,"groups":[
{"tgid":10,"name":"demo","threads":[{"tid":10,"blocked":[]}],"actions":[]}],"steps":[
{"actor":900,"do":"seize","tid":10,"options":[]},
{"actor":900,"do":"interrupt","tid":10},
{"actor":10,"do":"trap","tid":10},
{"actor":900,"do":"wait","tid":0},
{"actor":900,"do":"cont","tid":10,"sig":0},
{"actor":901,"do":"kill","tgid":10,"sig":19},
{"actor":10,"do":"take","tid":10},
{"actor":900,"do":"wait","tid":0},
{"actor":900,"do":"cont","tid":10,"sig":19},
{"actor":10,"do":"halt","tid":10},
{"actor":900,"do":"wait","tid":0},
{"actor":900,"do":"listen","tid":10},
{"actor":900,"do":"interrupt","tid":10},
{"actor":10,"do":"trap","tid":10},
{"actor":900,"do":"wait","tid":0},
{"actor":10,"do":"trap","tid":10}]}"#,
        output: "#1 900 seize ok\n\
#2 900 interrupt ok\n\
#3 10 trap ok\n\
#4 900 wait waited 10 80057f 1\n\
#5 900 cont ok\n\
#6 901 kill sent 1 pending\n\
#7 10 take took 10 1 19 0 reported\n\
#8 900 wait waited 10 137f 2\n\
#9 900 cont ok\n\
#10 10 halt ok\n\
#11 900 wait waited 10 80137f 3\n\
#12 900 listen ok\n\
#13 900 interrupt ok\n\
#14 10 trap ok\n\
#15 900 wait waited 10 80137f 4\n\
! 10 trap NotDue\n\
\n\
Name:\tdemo\n\
State:\tt (tracing stop)\n\
Tgid:\t10\n\
Pid:\t10\n\
PPid:\t1\n\
TracerPid:\t900\n\
Threads:\t1\n\
SigQ:\t0/4\n\
SigPnd:\t0000000000000000\n\
ShdPnd:\t0000000000000000\n\
SigBlk:\t0000000000000000\n\
SigIgn:\t0000000000000000\n\
SigCgt:\t0000000000000000\n\
\n\
totals accepted 1 pending 0 merged 0 delivered 1 suppressed 0 flushed 0\n",
    },
    Run {
        shows: "a tracer asks at a stop what is not modelled there",
        input: r#"{"version":1,"limit":4,"entries":1000,"groups":[
{"tgid":10,"name":"demo","threads":[{"tid":10,"blocked":[]}],"actions":[]}],"steps":[
{"actor":900,"do":"seize","tid":10,"options":[]},
{"actor":900,"do":"interrupt","tid":10},
{"actor":10,"do":"trap","tid":10},
{"actor":900,"do":"siginfo","tid":10},
{"actor":900,"do":"message","tid":10}]}"#,
        output: "#1 900 seize ok\n\
#2 900 interrupt ok\n\
#3 10 trap ok\n\
! 900 siginfo Unmodelled\n\
! 900 message Unmodelled\n\
\n\
Name:\tdemo\n\
State:\tt (tracing stop)\n\
Tgid:\t10\n\
Pid:\t10\n\
PPid:\t1\n\
TracerPid:\t900\n\
Threads:\t1\n\
SigQ:\t0/4\n\
SigPnd:\t0000000000000000\n\
ShdPnd:\t0000000000000000\n\
SigBlk:\t0000000000000000\n\
SigIgn:\t0000000000000000\n\
SigCgt:\t0000000000000000\n\
\n\
totals accepted 0 pending 0 merged 0 delivered 0 suppressed 0 flushed 0\n",
    },
    Run {
        shows: "an exec stop tells the id before",
        input: r#"{"version":1,"limit":4,"entries":1000,"groups":[
{"tgid":10,"name":"demo","threads":[{"tid":10,"blocked":[]}],"actions":[]}],"steps":[
{"actor":900,"do":"attach","tid":10},
{"actor":10,"do":"take","tid":10},
{"actor":900,"do":"wait","tid":0},
{"actor":900,"do":"options","tid":10,"options":["exec"]},
{"actor":900,"do":"cont","tid":10,"sig":0},
{"actor":10,"do":"exec","tid":10},
{"actor":900,"do":"wait","tid":0},
{"actor":900,"do":"message","tid":10}]}"#,
        output: "#1 900 attach sent 1 pending\n\
#2 10 take took 10 1 19 0 reported\n\
#3 900 wait waited 10 137f 1\n\
#4 900 options ok\n\
#5 900 cont ok\n\
#6 10 exec ok\n\
#7 900 wait waited 10 4057f 2\n\
. 900 message message 10\n\
\n\
Name:\tdemo\n\
State:\tt (tracing stop)\n\
Tgid:\t10\n\
Pid:\t10\n\
PPid:\t1\n\
TracerPid:\t900\n\
Threads:\t1\n\
SigQ:\t0/4\n\
SigPnd:\t0000000000000000\n\
ShdPnd:\t0000000000000000\n\
SigBlk:\t0000000000000000\n\
SigIgn:\t0000000000000000\n\
SigCgt:\t0000000000000000\n\
\n\
totals accepted 1 pending 0 merged 0 delivered 0 suppressed 1 flushed 0\n",
    },
    Run {
        shows: "execve(2) without the option sends SIGTRAP",
        input: r#"{"version":1,"limit":4,"entries":1000,"groups":[
{"tgid":10,"name":"demo","threads":[{"tid":10,"blocked":[]}],"actions":[]}],"steps":[
{"actor":900,"do":"attach","tid":10},
{"actor":10,"do":"take","tid":10},
{"actor":900,"do":"wait","tid":0},
{"actor":900,"do":"cont","tid":10,"sig":0},
{"actor":10,"do":"exec","tid":10}]}"#,
        output: "#1 900 attach sent 1 pending\n\
#2 10 take took 10 1 19 0 reported\n\
#3 900 wait waited 10 137f 1\n\
#4 900 cont ok\n\
#5 10 exec ok\n\
\n\
Name:\tdemo\n\
State:\tR (running)\n\
Tgid:\t10\n\
Pid:\t10\n\
PPid:\t1\n\
TracerPid:\t900\n\
Threads:\t1\n\
SigQ:\t1/4\n\
SigPnd:\t0000000000000010\n\
ShdPnd:\t0000000000000000\n\
SigBlk:\t0000000000000000\n\
SigIgn:\t0000000000000000\n\
SigCgt:\t0000000000000000\n\
\n\
totals accepted 2 pending 1 merged 0 delivered 0 suppressed 1 flushed 0\n",
    },
    Run {
        shows: "SIGTRAP of execve(2) is reported",
        input: r#"{"version":1,"limit":4,"entries":1000,"groups":[
{"tgid":10,"name":"demo","threads":[{"tid":10,"blocked":[]}],"actions":[]}],"steps":[
{"actor":900,"do":"attach","tid":10},
{"actor":10,"do":"take","tid":10},
{"actor":900,"do":"wait","tid":0},
{"actor":900,"do":"cont","tid":10,"sig":0},
{"actor":10,"do":"exec","tid":10},
{"actor":10,"do":"take","tid":10},
{"actor":900,"do":"siginfo","tid":10},
{"actor":900,"do":"wait","tid":0}]}"#,
        output: "#1 900 attach sent 1 pending\n\
#2 10 take took 10 1 19 0 reported\n\
#3 900 wait waited 10 137f 1\n\
#4 900 cont ok\n\
#5 10 exec ok\n\
#6 10 take took 10 2 5 0 reported\n\
. 900 siginfo info 5 0 10 0\n\
#7 900 wait waited 10 57f 2\n\
\n\
Name:\tdemo\n\
State:\tt (tracing stop)\n\
Tgid:\t10\n\
Pid:\t10\n\
PPid:\t1\n\
TracerPid:\t900\n\
Threads:\t1\n\
SigQ:\t0/4\n\
SigPnd:\t0000000000000000\n\
ShdPnd:\t0000000000000000\n\
SigBlk:\t0000000000000000\n\
SigIgn:\t0000000000000000\n\
SigCgt:\t0000000000000000\n\
\n\
totals accepted 2 pending 1 merged 0 delivered 0 suppressed 1 flushed 0\n",
    },
    Run {
        shows: "a thread that is not the leader takes its id by execve(2)",
        input: r#"{"version":1,"limit":4,"entries":1000,"groups":[
{"tgid":10,"name":"demo","threads":[{"tid":10,"blocked":[]},{"tid":11,"blocked":[]}],"actions":[]}],"steps":[
{"actor":900,"do":"seize","tid":11,"options":["exec"]},
{"actor":11,"do":"mask","tid":11,"set":[12]},
{"actor":901,"do":"tgkill","tgid":10,"tid":11,"sig":12},
{"actor":11,"do":"exec","tid":11},
{"actor":11,"do":"finish","tid":11},
{"actor":10,"do":"die","tid":10},
{"actor":11,"do":"finish","tid":11},
{"actor":900,"do":"wait","tid":0},
{"actor":900,"do":"message","tid":10},
{"actor":900,"do":"wait","tid":11},
{"actor":900,"do":"cont","tid":10,"sig":0}]}"#,
        output: "#1 900 seize ok\n\
#2 11 mask ok\n\
#3 901 tgkill sent 1 pending\n\
#4 11 exec ok\n\
! 11 finish NotDue\n\
#5 10 die ok\n\
#6 11 finish ok\n\
#7 900 wait waited 10 4057f 1\n\
. 900 message message 11\n\
! 900 wait ECHILD 10\n\
#8 900 cont ok\n\
\n\
Name:\tdemo\n\
State:\tR (running)\n\
Tgid:\t10\n\
Pid:\t10\n\
PPid:\t1\n\
TracerPid:\t900\n\
Threads:\t1\n\
SigQ:\t1/4\n\
SigPnd:\t0000000000000800\n\
ShdPnd:\t0000000000000000\n\
SigBlk:\t0000000000000800\n\
SigIgn:\t0000000000000000\n\
SigCgt:\t0000000000000000\n\
\n\
totals accepted 1 pending 1 merged 0 delivered 0 suppressed 0 flushed 0\n",
    },
    Run {
        shows: "a KILL comes before execve(2) is done",
        input: r#"{"version":1,"limit":4,"entries":1000,"groups":[
{"tgid":10,"name":"demo","threads":[{"tid":10,"blocked":[]},{"tid":11,"blocked":[]}],"actions":[]}],"steps":[
{"actor":900,"do":"seize","tid":11,"options":["exec"]},
{"actor":11,"do":"exec","tid":11},
{"actor":901,"do":"kill","tgid":10,"sig":9},
{"actor":11,"do":"finish","tid":11},
{"actor":10,"do":"die","tid":10},
{"actor":11,"do":"die","tid":11},
{"actor":900,"do":"wait","tid":0},
{"actor":1,"do":"starter_wait","tgid":0,"untraced":false,"continued":false}]}"#,
        output: "#1 900 seize ok\n\
#2 11 exec ok\n\
#3 901 kill sent 1 delivered\n\
! 11 finish NotDue\n\
#4 10 die ok\n\
#5 11 die ok\n\
#6 900 wait waited 11 9 1\n\
#7 1 starter_wait waited 10 9 2\n\
\n\
totals accepted 1 pending 0 merged 0 delivered 1 suppressed 0 flushed 0\n",
    },
    Run {
        shows: "another thread ends by execve(2) with an exit stop",
        input: r#"{"version":1,"limit":4,"entries":1000,"groups":[
{"tgid":10,"name":"demo","threads":[{"tid":10,"blocked":[]},{"tid":11,"blocked":[]}],"actions":[]}],"steps":[
{"actor":900,"do":"seize","tid":11,"options":["exit"]},
{"actor":10,"do":"exec","tid":10},
{"actor":11,"do":"die","tid":11},
{"actor":900,"do":"wait","tid":0},
{"actor":900,"do":"message","tid":11},
{"actor":900,"do":"cont","tid":11,"sig":0},
{"actor":10,"do":"finish","tid":10},
{"actor":11,"do":"die","tid":11},
{"actor":10,"do":"finish","tid":10},
{"actor":900,"do":"wait","tid":0}]}"#,
        output: "#1 900 seize ok\n\
#2 10 exec ok\n\
#3 11 die ok\n\
#4 900 wait waited 11 6057f 1\n\
. 900 message message 0\n\
#5 900 cont ok\n\
! 10 finish NotDue\n\
#6 11 die ok\n\
#7 10 finish ok\n\
#8 900 wait waited 11 0 2\n\
\n\
Name:\tdemo\n\
State:\tR (running)\n\
Tgid:\t10\n\
Pid:\t10\n\
PPid:\t1\n\
TracerPid:\t0\n\
Threads:\t1\n\
SigQ:\t0/4\n\
SigPnd:\t0000000000000000\n\
ShdPnd:\t0000000000000000\n\
SigBlk:\t0000000000000000\n\
SigIgn:\t0000000000000000\n\
SigCgt:\t0000000000000000\n\
\n\
totals accepted 0 pending 0 merged 0 delivered 0 suppressed 0 flushed 0\n",
    },
];
