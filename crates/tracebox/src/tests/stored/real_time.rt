//! Signals that queue, and the order of takes.

use super::Run;

pub const RUNS: [Run; 10] = [
    Run {
        shows: "real-time signals queue",
        input: r#"{"version":1,"limit":4,"entries":1000,"groups":[
{"tgid":10,"name":"demo","threads":[{"tid":10,"blocked":[]}],"actions":[]}],"steps":[
{"actor":10,"do":"action","tid":10,"sig":34,"how":"catch"},
{"actor":10,"do":"mask","tid":10,"set":[34]},
{"actor":901,"do":"sigqueue","tgid":10,"sig":34,"value":1},
{"actor":901,"do":"sigqueue","tgid":10,"sig":34,"value":2},
{"actor":901,"do":"sigqueue","tgid":10,"sig":34,"value":3},
{"actor":901,"do":"sigqueue","tgid":10,"sig":34,"value":4}]}"#,
        output: "#1 10 action ok\n\
#2 10 mask ok\n\
#3 901 sigqueue sent 1 pending\n\
#4 901 sigqueue sent 2 pending\n\
#5 901 sigqueue sent 3 pending\n\
#6 901 sigqueue sent 4 pending\n\
\n\
Name:\tdemo\n\
State:\tR (running)\n\
Tgid:\t10\n\
Pid:\t10\n\
PPid:\t1\n\
TracerPid:\t0\n\
Threads:\t1\n\
SigQ:\t4/4\n\
SigPnd:\t0000000000000000\n\
ShdPnd:\t0000000200000000\n\
SigBlk:\t0000000200000000\n\
SigIgn:\t0000000000000000\n\
SigCgt:\t0000000200000000\n\
\n\
totals accepted 4 pending 4 merged 0 delivered 0 suppressed 0 flushed 0\n",
    },
    Run {
        shows: "a real-time signal is refused at the queue limit",
        input: r#"{"version":1,"limit":4,"entries":1000,"groups":[
{"tgid":10,"name":"demo","threads":[{"tid":10,"blocked":[]}],"actions":[]}],"steps":[
{"actor":10,"do":"action","tid":10,"sig":34,"how":"catch"},
{"actor":10,"do":"mask","tid":10,"set":[34]},
{"actor":901,"do":"sigqueue","tgid":10,"sig":34,"value":1},
{"actor":901,"do":"sigqueue","tgid":10,"sig":34,"value":2},
{"actor":901,"do":"sigqueue","tgid":10,"sig":34,"value":3},
{"actor":901,"do":"sigqueue","tgid":10,"sig":34,"value":4},
{"actor":901,"do":"sigqueue","tgid":10,"sig":34,"value":5}]}"#,
        output: "#1 10 action ok\n\
#2 10 mask ok\n\
#3 901 sigqueue sent 1 pending\n\
#4 901 sigqueue sent 2 pending\n\
#5 901 sigqueue sent 3 pending\n\
#6 901 sigqueue sent 4 pending\n\
! 901 sigqueue EAGAIN 11\n\
\n\
Name:\tdemo\n\
State:\tR (running)\n\
Tgid:\t10\n\
Pid:\t10\n\
PPid:\t1\n\
TracerPid:\t0\n\
Threads:\t1\n\
SigQ:\t4/4\n\
SigPnd:\t0000000000000000\n\
ShdPnd:\t0000000200000000\n\
SigBlk:\t0000000200000000\n\
SigIgn:\t0000000000000000\n\
SigCgt:\t0000000200000000\n\
\n\
totals accepted 4 pending 4 merged 0 delivered 0 suppressed 0 flushed 0\n",
    },
    Run {
        shows: "one number is taken in the order of acceptance",
        input: r#"{"version":1,"limit":4,"entries":1000,"groups":[
{"tgid":10,"name":"demo","threads":[{"tid":10,"blocked":[]}],"actions":[]}],"steps":[
{"actor":10,"do":"action","tid":10,"sig":34,"how":"catch"},
{"actor":10,"do":"mask","tid":10,"set":[34]},
{"actor":901,"do":"sigqueue","tgid":10,"sig":34,"value":1},
{"actor":901,"do":"sigqueue","tgid":10,"sig":34,"value":2},
{"actor":901,"do":"sigqueue","tgid":10,"sig":34,"value":3},
{"actor":901,"do":"sigqueue","tgid":10,"sig":34,"value":4},
{"actor":901,"do":"sigqueue","tgid":10,"sig":34,"value":5},
{"actor":10,"do":"mask","tid":10,"set":[]},
{"actor":10,"do":"take","tid":10,"times":4},
{"actor":10,"do":"take","tid":10}]}"#,
        output: "#1 10 action ok\n\
#2 10 mask ok\n\
#3 901 sigqueue sent 1 pending\n\
#4 901 sigqueue sent 2 pending\n\
#5 901 sigqueue sent 3 pending\n\
#6 901 sigqueue sent 4 pending\n\
! 901 sigqueue EAGAIN 11\n\
#7 10 mask ok\n\
#8 10 take took 10 1 34 1 caught\n\
#9 10 take took 10 2 34 2 caught\n\
#10 10 take took 10 3 34 3 caught\n\
#11 10 take took 10 4 34 4 caught\n\
. 10 take nothing\n\
\n\
Name:\tdemo\n\
State:\tR (running)\n\
Tgid:\t10\n\
Pid:\t10\n\
PPid:\t1\n\
TracerPid:\t0\n\
Threads:\t1\n\
SigQ:\t0/4\n\
SigPnd:\t0000000000000000\n\
ShdPnd:\t0000000000000000\n\
SigBlk:\t0000000000000000\n\
SigIgn:\t0000000000000000\n\
SigCgt:\t0000000200000000\n\
\n\
totals accepted 4 pending 0 merged 0 delivered 4 suppressed 0 flushed 0\n",
    },
    Run {
        shows: "real-time signals queue, caught from the start",
        input: r#"{"version":1,"limit":4,"entries":1000,"groups":[
{"tgid":10,"name":"demo","threads":[{"tid":10,"blocked":[]}],"actions":[{"sig":34,"how":"catch"}]}],"steps":[
{"actor":10,"do":"mask","tid":10,"set":[34]},
{"actor":901,"do":"sigqueue","tgid":10,"sig":34,"value":1},
{"actor":901,"do":"sigqueue","tgid":10,"sig":34,"value":2},
{"actor":901,"do":"sigqueue","tgid":10,"sig":34,"value":3},
{"actor":901,"do":"sigqueue","tgid":10,"sig":34,"value":4}]}"#,
        output: "#1 10 mask ok\n\
#2 901 sigqueue sent 1 pending\n\
#3 901 sigqueue sent 2 pending\n\
#4 901 sigqueue sent 3 pending\n\
#5 901 sigqueue sent 4 pending\n\
\n\
Name:\tdemo\n\
State:\tR (running)\n\
Tgid:\t10\n\
Pid:\t10\n\
PPid:\t1\n\
TracerPid:\t0\n\
Threads:\t1\n\
SigQ:\t4/4\n\
SigPnd:\t0000000000000000\n\
ShdPnd:\t0000000200000000\n\
SigBlk:\t0000000200000000\n\
SigIgn:\t0000000000000000\n\
SigCgt:\t0000000200000000\n\
\n\
totals accepted 4 pending 4 merged 0 delivered 0 suppressed 0 flushed 0\n",
    },
    Run {
        shows: "a real-time signal is refused at the queue limit, caught from the start",
        input: r#"{"version":1,"limit":4,"entries":1000,"groups":[
{"tgid":10,"name":"demo","threads":[{"tid":10,"blocked":[]}],"actions":[{"sig":34,"how":"catch"}]}],"steps":[
{"actor":10,"do":"mask","tid":10,"set":[34]},
{"actor":901,"do":"sigqueue","tgid":10,"sig":34,"value":1},
{"actor":901,"do":"sigqueue","tgid":10,"sig":34,"value":2},
{"actor":901,"do":"sigqueue","tgid":10,"sig":34,"value":3},
{"actor":901,"do":"sigqueue","tgid":10,"sig":34,"value":4},
{"actor":901,"do":"sigqueue","tgid":10,"sig":34,"value":5}]}"#,
        output: "#1 10 mask ok\n\
#2 901 sigqueue sent 1 pending\n\
#3 901 sigqueue sent 2 pending\n\
#4 901 sigqueue sent 3 pending\n\
#5 901 sigqueue sent 4 pending\n\
! 901 sigqueue EAGAIN 11\n\
\n\
Name:\tdemo\n\
State:\tR (running)\n\
Tgid:\t10\n\
Pid:\t10\n\
PPid:\t1\n\
TracerPid:\t0\n\
Threads:\t1\n\
SigQ:\t4/4\n\
SigPnd:\t0000000000000000\n\
ShdPnd:\t0000000200000000\n\
SigBlk:\t0000000200000000\n\
SigIgn:\t0000000000000000\n\
SigCgt:\t0000000200000000\n\
\n\
totals accepted 4 pending 4 merged 0 delivered 0 suppressed 0 flushed 0\n",
    },
    Run {
        shows: "one number is taken in order, caught from the start",
        input: r#"{"version":1,"limit":4,"entries":1000,"groups":[
{"tgid":10,"name":"demo","threads":[{"tid":10,"blocked":[]}],"actions":[{"sig":34,"how":"catch"}]}],"steps":[
{"actor":10,"do":"mask","tid":10,"set":[34]},
{"actor":901,"do":"sigqueue","tgid":10,"sig":34,"value":1},
{"actor":901,"do":"sigqueue","tgid":10,"sig":34,"value":2},
{"actor":901,"do":"sigqueue","tgid":10,"sig":34,"value":3},
{"actor":901,"do":"sigqueue","tgid":10,"sig":34,"value":4},
{"actor":901,"do":"sigqueue","tgid":10,"sig":34,"value":5},
{"actor":10,"do":"mask","tid":10,"set":[]},
{"actor":10,"do":"take","tid":10,"times":4},
{"actor":10,"do":"take","tid":10}]}"#,
        output: "#1 10 mask ok\n\
#2 901 sigqueue sent 1 pending\n\
#3 901 sigqueue sent 2 pending\n\
#4 901 sigqueue sent 3 pending\n\
#5 901 sigqueue sent 4 pending\n\
! 901 sigqueue EAGAIN 11\n\
#6 10 mask ok\n\
#7 10 take took 10 1 34 1 caught\n\
#8 10 take took 10 2 34 2 caught\n\
#9 10 take took 10 3 34 3 caught\n\
#10 10 take took 10 4 34 4 caught\n\
. 10 take nothing\n\
\n\
Name:\tdemo\n\
State:\tR (running)\n\
Tgid:\t10\n\
Pid:\t10\n\
PPid:\t1\n\
TracerPid:\t0\n\
Threads:\t1\n\
SigQ:\t0/4\n\
SigPnd:\t0000000000000000\n\
ShdPnd:\t0000000000000000\n\
SigBlk:\t0000000000000000\n\
SigIgn:\t0000000000000000\n\
SigCgt:\t0000000200000000\n\
\n\
totals accepted 4 pending 0 merged 0 delivered 4 suppressed 0 flushed 0\n",
    },
    Run {
        shows: "signals of three numbers wait",
        input: r#"{"version":1,"limit":4,"entries":1000,"groups":[
{"tgid":10,"name":"demo","threads":[{"tid":10,"blocked":[]}],"actions":[]}],"steps":[
{"actor":10,"do":"action","tid":10,"sig":10,"how":"catch"},
{"actor":10,"do":"action","tid":10,"sig":34,"how":"catch"},
{"actor":10,"do":"action","tid":10,"sig":64,"how":"catch"},
{"actor":10,"do":"mask","tid":10,"set":[10,34,64]},
{"actor":901,"do":"kill","tgid":10,"sig":64},
{"actor":901,"do":"kill","tgid":10,"sig":34},
{"actor":901,"do":"kill","tgid":10,"sig":10}]}"#,
        output: "#1 10 action ok\n\
#2 10 action ok\n\
#3 10 action ok\n\
#4 10 mask ok\n\
#5 901 kill sent 1 pending\n\
#6 901 kill sent 2 pending\n\
#7 901 kill sent 3 pending\n\
\n\
Name:\tdemo\n\
State:\tR (running)\n\
Tgid:\t10\n\
Pid:\t10\n\
PPid:\t1\n\
TracerPid:\t0\n\
Threads:\t1\n\
SigQ:\t3/4\n\
SigPnd:\t0000000000000000\n\
ShdPnd:\t8000000200000200\n\
SigBlk:\t8000000200000200\n\
SigIgn:\t0000000000000000\n\
SigCgt:\t8000000200000200\n\
\n\
totals accepted 3 pending 3 merged 0 delivered 0 suppressed 0 flushed 0\n",
    },
    Run {
        shows: "the least number is taken first",
        input: r#"{"version":1,"limit":4,"entries":1000,"groups":[
{"tgid":10,"name":"demo","threads":[{"tid":10,"blocked":[]}],"actions":[]}],"steps":[
{"actor":10,"do":"action","tid":10,"sig":10,"how":"catch"},
{"actor":10,"do":"action","tid":10,"sig":34,"how":"catch"},
{"actor":10,"do":"action","tid":10,"sig":64,"how":"catch"},
{"actor":10,"do":"mask","tid":10,"set":[10,34,64]},
{"actor":901,"do":"kill","tgid":10,"sig":64},
{"actor":901,"do":"kill","tgid":10,"sig":34},
{"actor":901,"do":"kill","tgid":10,"sig":10},
{"actor":10,"do":"mask","tid":10,"set":[]},
{"actor":10,"do":"take","tid":10},
{"actor":10,"do":"take","tid":10},
{"actor":10,"do":"take","tid":10}]}"#,
        output: "#1 10 action ok\n\
#2 10 action ok\n\
#3 10 action ok\n\
#4 10 mask ok\n\
#5 901 kill sent 1 pending\n\
#6 901 kill sent 2 pending\n\
#7 901 kill sent 3 pending\n\
#8 10 mask ok\n\
#9 10 take took 10 3 10 0 caught\n\
#10 10 take took 10 2 34 0 caught\n\
#11 10 take took 10 1 64 0 caught\n\
\n\
Name:\tdemo\n\
State:\tR (running)\n\
Tgid:\t10\n\
Pid:\t10\n\
PPid:\t1\n\
TracerPid:\t0\n\
Threads:\t1\n\
SigQ:\t0/4\n\
SigPnd:\t0000000000000000\n\
ShdPnd:\t0000000000000000\n\
SigBlk:\t0000000000000000\n\
SigIgn:\t0000000000000000\n\
SigCgt:\t8000000200000200\n\
\n\
totals accepted 3 pending 0 merged 0 delivered 3 suppressed 0 flushed 0\n",
    },
    Run {
        shows: "signals of three numbers wait, caught from the start",
        input: r#"{"version":1,"limit":4,"entries":1000,"groups":[
{"tgid":10,"name":"demo","threads":[{"tid":10,"blocked":[]}],"actions":[{"sig":10,"how":"catch"},{"sig":34,"how":"catch"},{"sig":64,"how":"catch"}]}],"steps":[
{"actor":10,"do":"mask","tid":10,"set":[10,34,64]},
{"actor":901,"do":"kill","tgid":10,"sig":64},
{"actor":901,"do":"kill","tgid":10,"sig":34},
{"actor":901,"do":"kill","tgid":10,"sig":10}]}"#,
        output: "#1 10 mask ok\n\
#2 901 kill sent 1 pending\n\
#3 901 kill sent 2 pending\n\
#4 901 kill sent 3 pending\n\
\n\
Name:\tdemo\n\
State:\tR (running)\n\
Tgid:\t10\n\
Pid:\t10\n\
PPid:\t1\n\
TracerPid:\t0\n\
Threads:\t1\n\
SigQ:\t3/4\n\
SigPnd:\t0000000000000000\n\
ShdPnd:\t8000000200000200\n\
SigBlk:\t8000000200000200\n\
SigIgn:\t0000000000000000\n\
SigCgt:\t8000000200000200\n\
\n\
totals accepted 3 pending 3 merged 0 delivered 0 suppressed 0 flushed 0\n",
    },
    Run {
        shows: "the least number is taken first, caught from the start",
        input: r#"{"version":1,"limit":4,"entries":1000,"groups":[
{"tgid":10,"name":"demo","threads":[{"tid":10,"blocked":[]}],"actions":[{"sig":10,"how":"catch"},{"sig":34,"how":"catch"},{"sig":64,"how":"catch"}]}],"steps":[
{"actor":10,"do":"mask","tid":10,"set":[10,34,64]},
{"actor":901,"do":"kill","tgid":10,"sig":64},
{"actor":901,"do":"kill","tgid":10,"sig":34},
{"actor":901,"do":"kill","tgid":10,"sig":10},
{"actor":10,"do":"mask","tid":10,"set":[]},
{"actor":10,"do":"take","tid":10},
{"actor":10,"do":"take","tid":10},
{"actor":10,"do":"take","tid":10}]}"#,
        output: "#1 10 mask ok\n\
#2 901 kill sent 1 pending\n\
#3 901 kill sent 2 pending\n\
#4 901 kill sent 3 pending\n\
#5 10 mask ok\n\
#6 10 take took 10 3 10 0 caught\n\
#7 10 take took 10 2 34 0 caught\n\
#8 10 take took 10 1 64 0 caught\n\
\n\
Name:\tdemo\n\
State:\tR (running)\n\
Tgid:\t10\n\
Pid:\t10\n\
PPid:\t1\n\
TracerPid:\t0\n\
Threads:\t1\n\
SigQ:\t0/4\n\
SigPnd:\t0000000000000000\n\
ShdPnd:\t0000000000000000\n\
SigBlk:\t0000000000000000\n\
SigIgn:\t0000000000000000\n\
SigCgt:\t8000000200000200\n\
\n\
totals accepted 3 pending 0 merged 0 delivered 3 suppressed 0 flushed 0\n",
    },
];
