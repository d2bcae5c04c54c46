//! Tracers, their restarts and the ptrace-stops of their tracees.

use super::Run;

pub const RUNS: [Run; 12] = [
    Run {
        shows: "an attached thread stops, and SIGSTOP is suppressed",
        input: r#"{"version":1,"limit":4,"entries":1000,"groups":[
{"tgid":10,"name":"demo","threads":[{"tid":10,"blocked":[]}],"actions":[]}],"steps":[
{"actor":900,"do":"attach","tid":10},
{"actor":10,"do":"take","tid":10},
{"actor":900,"do":"wait","tid":0},
{"actor":900,"do":"cont","tid":10,"sig":0},
{"actor":900,"do":"wait","tid":0}]}"#,
        output: "#1 900 attach sent 1 pending\n\
#2 10 take took 10 1 19 0 reported\n\
#3 900 wait waited 10 137f 1\n\
#4 900 cont ok\n\
. 900 wait nothing\n\
\n\
Name:\tdemo\n\
State:\tR (running)\n\
Tgid:\t10\n\
Pid:\t10\n\
PPid:\t1\n\
TracerPid:\t900\n\
Threads:\t1\n\
SigQ:\t0/4\n\
SigPnd:\t0000000000000000\n\
ShdPnd:\t0000000000000000\n\
SigBlk:\t0000000000000000\n\
SigIgn:\t0000000000000000\n\
SigCgt:\t0000000000000000\n\
\n\
totals accepted 1 pending 0 merged 0 delivered 0 suppressed 1 flushed 0\n",
    },
    Run {
        shows: "a tracer passes on a signal that the thread catches",
        input: r#"{"version":1,"limit":4,"entries":100,"groups":[
{"tgid":10,"name":"demo","threads":[{"tid":10,"blocked":[]}],"actions":[{"sig":10,"how":"catch"}]}],"steps":[
{"actor":900,"do":"attach","tid":10},
{"actor":10,"do":"take","tid":10},
{"actor":900,"do":"wait","tid":10},
{"actor":900,"do":"cont","tid":10,"sig":0},
{"actor":901,"do":"kill","tgid":10,"sig":10},
{"actor":10,"do":"take","tid":10},
{"actor":900,"do":"wait","tid":10},
{"actor":900,"do":"siginfo","tid":10},
{"actor":900,"do":"cont","tid":10,"sig":10},
{"actor":900,"do":"wait","tid":10}]}"#,
        output: "#1 900 attach sent 1 pending\n\
#2 10 take took 10 1 19 0 reported\n\
#3 900 wait waited 10 137f 1\n\
#4 900 cont ok\n\
#5 901 kill sent 2 pending\n\
#6 10 take took 10 2 10 0 reported\n\
#7 900 wait waited 10 a7f 2\n\
. 900 siginfo info 10 0 901 0\n\
#8 900 cont ok\n\
. 900 wait nothing\n\
\n\
Name:\tdemo\n\
State:\tR (running)\n\
Tgid:\t10\n\
Pid:\t10\n\
PPid:\t1\n\
TracerPid:\t900\n\
Threads:\t1\n\
SigQ:\t0/4\n\
SigPnd:\t0000000000000000\n\
ShdPnd:\t0000000000000000\n\
SigBlk:\t0000000000000000\n\
SigIgn:\t0000000000000000\n\
SigCgt:\t0000000000000200\n\
\n\
totals accepted 2 pending 0 merged 0 delivered 1 suppressed 1 flushed 0\n",
    },
    Run {
        shows: "a tracee stops for a signal that it ignores",
        input: r#"{"version":1,"limit":4,"entries":1000,"groups":[
{"tgid":10,"name":"demo","threads":[{"tid":10,"blocked":[]}],"actions":[{"sig":10,"how":"ignore"}]}],"steps":[
{"actor":900,"do":"attach","tid":10},
{"actor":10,"do":"take","tid":10},
{"actor":900,"do":"wait","tid":0},
{"actor":900,"do":"cont","tid":10,"sig":0},
{"actor":900,"do":"wait","tid":0},
{"actor":901,"do":"kill","tgid":10,"sig":10},
{"actor":10,"do":"take","tid":10},
{"actor":900,"do":"wait","tid":0}]}"#,
        output: "#1 900 attach sent 1 pending\n\
#2 10 take took 10 1 19 0 reported\n\
#3 900 wait waited 10 137f 1\n\
#4 900 cont ok\n\
. 900 wait nothing\n\
#5 901 kill sent 2 pending\n\
#6 10 take took 10 2 10 0 reported\n\
#7 900 wait waited 10 a7f 2\n\
\n\
Name:\tdemo\n\
State:\tt (tracing stop)\n\
Tgid:\t10\n\
Pid:\t10\n\
PPid:\t1\n\
TracerPid:\t900\n\
Threads:\t1\n\
SigQ:\t0/4\n\
SigPnd:\t0000000000000000\n\
ShdPnd:\t0000000000000000\n\
SigBlk:\t0000000000000000\n\
SigIgn:\t0000000000000200\n\
SigCgt:\t0000000000000000\n\
\n\
totals accepted 2 pending 1 merged 0 delivered 0 suppressed 1 flushed 0\n",
    },
    Run {
        shows: "a new thread is traced like its parent",
        input: r#"{"version":1,"limit":4,"entries":1000,"groups":[
{"tgid":10,"name":"demo","threads":[{"tid":10,"blocked":[]}],"actions":[]}],"steps":[
{"actor":900,"do":"seize","tid":10,"options":["clone"]},
{"actor":10,"do":"clone","tid":10},
{"actor":900,"do":"wait","tid":0},
{"actor":900,"do":"message","tid":10},
{"actor":11,"do":"trap","tid":11},
{"actor":900,"do":"wait","tid":0}]}"#,
        output: "#1 900 seize ok\n\
#2 10 clone cloned 11\n\
#3 900 wait waited 10 3057f 1\n\
. 900 message message 11\n\
#4 11 trap ok\n\
#5 900 wait waited 11 80057f 2\n\
\n\
Name:\tdemo\n\
State:\tt (tracing stop)\n\
Tgid:\t10\n\
Pid:\t10\n\
PPid:\t1\n\
TracerPid:\t900\n\
Threads:\t2\n\
SigQ:\t0/4\n\
SigPnd:\t0000000000000000\n\
ShdPnd:\t0000000000000000\n\
SigBlk:\t0000000000000000\n\
SigIgn:\t0000000000000000\n\
SigCgt:\t0000000000000000\n\
\n\
Name:\tdemo\n\
State:\tt (tracing stop)\n\
Tgid:\t10\n\
Pid:\t11\n\
PPid:\t1\n\
TracerPid:\t900\n\
Threads:\t2\n\
SigQ:\t0/4\n\
SigPnd:\t0000000000000000\n\
ShdPnd:\t0000000000000000\n\
SigBlk:\t0000000000000000\n\
SigIgn:\t0000000000000000\n\
SigCgt:\t0000000000000000\n\
\n\
totals accepted 0 pending 0 merged 0 delivered 0 suppressed 0 flushed 0\n",
    },
    Run {
        shows: "an attached tracee is neither interrupted nor made to listen",
        input: r#"{"version":1,"limit":4,"entries":1000,"groups":[
{"tgid":10,"name":"demo","threads":[{"tid":10,"blocked":[]}],"actions":[]}],"steps":[
{"actor":900,"do":"attach","tid":10},
{"actor":10,"do":"take","tid":10},
{"actor":900,"do":"interrupt","tid":10},
{"actor":900,"do":"listen","tid":10}]}"#,
        output: "#1 900 attach sent 1 pending\n\
#2 10 take took 10 1 19 0 reported\n\
! 900 interrupt EIO 5\n\
! 900 listen EIO 5\n\
\n\
Name:\tdemo\n\
State:\tt (tracing stop)\n\
Tgid:\t10\n\
Pid:\t10\n\
PPid:\t1\n\
TracerPid:\t900\n\
Threads:\t1\n\
SigQ:\t0/4\n\
SigPnd:\t0000000000000000\n\
ShdPnd:\t0000000000000000\n\
SigBlk:\t0000000000000000\n\
SigIgn:\t0000000000000000\n\
SigCgt:\t0000000000000000\n\
\n\
totals accepted 1 pending 1 merged 0 delivered 0 suppressed 0 flushed 0\n",
    },
    Run {
        shows: "a tracer puts another signal in the place of the held one",
        input: r#"{"version":1,"limit":4,"entries":1000,"groups":[
{"tgid":10,"name":"demo","threads":[{"tid":10,"blocked":[]}],"actions":[{"sig":12,"how":"catch"}]}],"steps":[
{"actor":900,"do":"seize","tid":10,"options":[]},
{"actor":901,"do":"kill","tgid":10,"sig":10},
{"actor":10,"do":"take","tid":10},
{"actor":900,"do":"wait","tid":0},
{"actor":900,"do":"cont","tid":10,"sig":65},
{"actor":900,"do":"cont","tid":10,"sig":12}]}"#,
        output: "#1 900 seize ok\n\
#2 901 kill sent 1 pending\n\
#3 10 take took 10 1 10 0 reported\n\
#4 900 wait waited 10 a7f 1\n\
! 900 cont EIO 5\n\
#5 900 cont ok\n\
\n\
Name:\tdemo\n\
State:\tR (running)\n\
Tgid:\t10\n\
Pid:\t10\n\
PPid:\t1\n\
TracerPid:\t900\n\
Threads:\t1\n\
SigQ:\t0/4\n\
SigPnd:\t0000000000000000\n\
ShdPnd:\t0000000000000000\n\
SigBlk:\t0000000000000000\n\
SigIgn:\t0000000000000000\n\
SigCgt:\t0000000000000800\n\
\n\
totals accepted 2 pending 0 merged 0 delivered 1 suppressed 1 flushed 0\n",
    },
    Run {
        shows: "an attached tracee is given another signal",
        input: r#"{"version":1,"limit":4,"entries":1000,"groups":[
{"tgid":10,"name":"demo","threads":[{"tid":10,"blocked":[]}],"actions":[{"sig":12,"how":"catch"}]}],"steps":[
{"actor":900,"do":"attach","tid":10},
{"actor":10,"do":"take","tid":10},
{"actor":900,"do":"wait","tid":0},
{"actor":900,"do":"cont","tid":10,"sig":0},
{"actor":901,"do":"kill","tgid":10,"sig":10},
{"actor":10,"do":"take","tid":10},
{"actor":900,"do":"wait","tid":0},
{"actor":900,"do":"cont","tid":10,"sig":65},
{"actor":900,"do":"cont","tid":10,"sig":12}]}"#,
        output: "#1 900 attach sent 1 pending\n\
#2 10 take took 10 1 19 0 reported\n\
#3 900 wait waited 10 137f 1\n\
#4 900 cont ok\n\
#5 901 kill sent 2 pending\n\
#6 10 take took 10 2 10 0 reported\n\
#7 900 wait waited 10 a7f 2\n\
! 900 cont EIO 5\n\
#8 900 cont ok\n\
\n\
Name:\tdemo\n\
State:\tR (running)\n\
Tgid:\t10\n\
Pid:\t10\n\
PPid:\t1\n\
TracerPid:\t900\n\
Threads:\t1\n\
SigQ:\t0/4\n\
SigPnd:\t0000000000000000\n\
ShdPnd:\t0000000000000000\n\
SigBlk:\t0000000000000000\n\
SigIgn:\t0000000000000000\n\
SigCgt:\t0000000000000800\n\
\n\
totals accepted 3 pending 0 merged 0 delivered 1 suppressed 2 flushed 0\n",
    },
    Run {
        shows: "SIGCONT comes before a stop signal is injected",
        input: r#"{"version":1,"limit":4,"entries":1000,"groups":[
{"tgid":10,"name":"demo","threads":[{"tid":10,"blocked":[]}],"actions":[]}],"steps":[
{"actor":900,"do":"seize","tid":10,"options":[]},
{"actor":901,"do":"kill","tgid":10,"sig":20},
{"actor":10,"do":"take","tid":10},
{"actor":900,"do":"wait","tid":0},
{"actor":901,"do":"kill","tgid":10,"sig":18},
{"actor":900,"do":"cont","tid":10,"sig":20}]}"#,
        output: "#1 900 seize ok\n\
#2 901 kill sent 1 pending\n\
#3 10 take took 10 1 20 0 reported\n\
#4 900 wait waited 10 147f 1\n\
#5 901 kill sent 2 pending\n\
#6 900 cont ok\n\
\n\
Name:\tdemo\n\
State:\tR (running)\n\
Tgid:\t10\n\
Pid:\t10\n\
PPid:\t1\n\
TracerPid:\t900\n\
Threads:\t1\n\
SigQ:\t1/4\n\
SigPnd:\t0000000000000000\n\
ShdPnd:\t0000000000020000\n\
SigBlk:\t0000000000000000\n\
SigIgn:\t0000000000000000\n\
SigCgt:\t0000000000000000\n\
\n\
totals accepted 2 pending 1 merged 0 delivered 1 suppressed 0 flushed 0\n",
    },
    Run {
        shows: "a continued tracee serves its note, and then takes SIGCONT",
        input: r#"{"version":1,"limit":4,"entries":1000,"groups":[
{"tgid":10,"name":"demo","threads":[{"tid":10,"blocked":[]}],"actions":[]}],"steps":[
{"actor":900,"do":"seize","tid":10,"options":[]},
{"actor":901,"do":"kill","tgid":10,"sig":20},
{"actor":10,"do":"take","tid":10},
{"actor":900,"do":"wait","tid":0},
{"actor":901,"do":"kill","tgid":10,"sig":18},
{"actor":900,"do":"cont","tid":10,"sig":20},
{"actor":10,"do":"take","tid":10},
{"actor":10,"do":"trap","tid":10},
{"actor":900,"do":"wait","tid":0},
{"actor":900,"do":"cont","tid":10,"sig":0},
{"actor":10,"do":"take","tid":10},
{"actor":900,"do":"wait","tid":0}]}"#,
        output: "#1 900 seize ok\n\
#2 901 kill sent 1 pending\n\
#3 10 take took 10 1 20 0 reported\n\
#4 900 wait waited 10 147f 1\n\
#5 901 kill sent 2 pending\n\
#6 900 cont ok\n\
! 10 take Busy\n\
#7 10 trap ok\n\
#8 900 wait waited 10 80057f 2\n\
#9 900 cont ok\n\
#10 10 take took 10 2 18 0 reported\n\
#11 900 wait waited 10 127f 3\n\
\n\
Name:\tdemo\n\
State:\tt (tracing stop)\n\
Tgid:\t10\n\
Pid:\t10\n\
PPid:\t1\n\
TracerPid:\t900\n\
Threads:\t1\n\
SigQ:\t0/4\n\
SigPnd:\t0000000000000000\n\
ShdPnd:\t0000000000000000\n\
SigBlk:\t0000000000000000\n\
SigIgn:\t0000000000000000\n\
SigCgt:\t0000000000000000\n\
\n\
totals accepted 2 pending 1 merged 0 delivered 1 suppressed 0 flushed 0\n",
    },
    Run {
        shows: "a tracee in a group-stop is detached",
        input: r#"{"version":1,"limit":4,"entries":1000,"groups":[
{"tgid":10,"name":"demo","threads":[{"tid":10,"blocked":[]}],"actions":[]}],"steps":[
{"actor":900,"do":"attach","tid":10},
{"actor":10,"do":"take","tid":10},
{"actor":900,"do":"siginfo","tid":10},
{"actor":900,"do":"wait","tid":0},
{"actor":900,"do":"cont","tid":10,"sig":19},
{"actor":10,"do":"halt","tid":10},
{"actor":900,"do":"siginfo","tid":10},
{"actor":900,"do":"wait","tid":0},
{"actor":900,"do":"detach","tid":10,"sig":0}]}"#,
        output: "#1 900 attach sent 1 pending\n\
#2 10 take took 10 1 19 0 reported\n\
. 900 siginfo info 19 128 0 0\n\
#3 900 wait waited 10 137f 1\n\
#4 900 cont ok\n\
#5 10 halt ok\n\
! 900 siginfo EINVAL 22\n\
#6 900 wait waited 10 137f 2\n\
#7 900 detach ok\n\
\n\
Name:\tdemo\n\
State:\tT (stopped)\n\
Tgid:\t10\n\
Pid:\t10\n\
PPid:\t1\n\
TracerPid:\t0\n\
Threads:\t1\n\
SigQ:\t0/4\n\
SigPnd:\t0000000000000000\n\
ShdPnd:\t0000000000000000\n\
SigBlk:\t0000000000000000\n\
SigIgn:\t0000000000000000\n\
SigCgt:\t0000000000000000\n\
\n\
totals accepted 1 pending 0 merged 0 delivered 1 suppressed 0 flushed 0\n",
    },
    Run {
        shows: "a tracer ends while its tracee is in a group-stop",
        input: r#"{"version":1,"limit":4,"entries":1000,"groups":[
{"tgid":10,"name":"demo","threads":[{"tid":10,"blocked":[]}],"actions":[]}],"steps":[
{"actor":900,"do":"attach","tid":10},
{"actor":10,"do":"take","tid":10},
{"actor":900,"do":"siginfo","tid":10},
{"actor":900,"do":"wait","tid":0},
{"actor":900,"do":"cont","tid":10,"sig":19},
{"actor":10,"do":"halt","tid":10},
{"actor":900,"do":"tracer_exit"}]}"#,
        output: "#1 900 attach sent 1 pending\n\
#2 10 take took 10 1 19 0 reported\n\
. 900 siginfo info 19 128 0 0\n\
#3 900 wait waited 10 137f 1\n\
#4 900 cont ok\n\
#5 10 halt ok\n\
#6 900 tracer_exit ok\n\
\n\
Name:\tdemo\n\
State:\tT (stopped)\n\
Tgid:\t10\n\
Pid:\t10\n\
PPid:\t1\n\
TracerPid:\t0\n\
Threads:\t1\n\
SigQ:\t0/4\n\
SigPnd:\t0000000000000000\n\
ShdPnd:\t0000000000000000\n\
SigBlk:\t0000000000000000\n\
SigIgn:\t0000000000000000\n\
SigCgt:\t0000000000000000\n\
\n\
totals accepted 1 pending 0 merged 0 delivered 1 suppressed 0 flushed 0\n",
    },
    Run {
        shows: "a tracee that was left is continued",
        input: r#"{"version":1,"limit":4,"entries":1000,"groups":[
{"tgid":10,"name":"demo","threads":[{"tid":10,"blocked":[]}],"actions":[]}],"steps":[
{"actor":900,"do":"attach","tid":10},
{"actor":10,"do":"take","tid":10},
{"actor":900,"do":"siginfo","tid":10},
{"actor":900,"do":"wait","tid":0},
{"actor":900,"do":"cont","tid":10,"sig":19},
{"actor":10,"do":"halt","tid":10},
{"actor":900,"do":"tracer_exit"},
{"actor":1,"do":"starter_wait","tgid":0,"untraced":true,"continued":false},
{"actor":901,"do":"kill","tgid":10,"sig":18},
{"actor":1,"do":"starter_wait","tgid":0,"untraced":false,"continued":true}]}"#,
        output: "#1 900 attach sent 1 pending\n\
#2 10 take took 10 1 19 0 reported\n\
. 900 siginfo info 19 128 0 0\n\
#3 900 wait waited 10 137f 1\n\
#4 900 cont ok\n\
#5 10 halt ok\n\
#6 900 tracer_exit ok\n\
. 1 starter_wait nothing\n\
#7 901 kill sent 2 flushed\n\
#8 1 starter_wait waited 10 ffff 3\n\
\n\
Name:\tdemo\n\
State:\tR (running)\n\
Tgid:\t10\n\
Pid:\t10\n\
PPid:\t1\n\
TracerPid:\t0\n\
Threads:\t1\n\
SigQ:\t0/4\n\
SigPnd:\t0000000000000000\n\
ShdPnd:\t0000000000000000\n\
SigBlk:\t0000000000000000\n\
SigIgn:\t0000000000000000\n\
SigCgt:\t0000000000000000\n\
\n\
totals accepted 2 pending 0 merged 0 delivered 1 suppressed 0 flushed 1\n",
    },
];
