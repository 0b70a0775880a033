//! Schedules of each kind and what they print.

use super::Row;

/// Schedules that are good.
pub const GOOD: [Row<'static>; 20] = [
    // thin-path
    Row {
        text: b"\
            schedule 1 memb 1 1 1 1\nu0 push c0\nu0 .\nr0 lock\nr0 .\nr0 first c0\nr0 touch\n\
            r0 unlock\n",
        printed: b"\
            .\npush c0 o1\n.\nopen r0.1\nfirst r0.1 c0 o1\ntouch r0.1 o1\nclose r0.1\n\
            end open=0 waiting=0 run=0\n",
        fault: "",
    },
    // nesting
    Row {
        text: b"\
            schedule 1 memb 1 1 1 1\nr0 lock\nr0 .\nr0 lock\nr0 unlock\nr0 unlock\n",
        printed: b"\
            .\nopen r0.1\n.\n.\nclose r0.1\nend open=0 waiting=0 run=0\n",
        fault: "",
    },
    // no-reader-in-the-way
    Row {
        text: b"\
            schedule 1 memb 1 1 1 1\nu0 sync\nu0 .\nu0 .\nu0 .\nu0 .\nu0 .\nu0 .\nu0 .\nu0 .\nu0 .\n",
        printed: b"\
            ask a1\n.\n.\n.\n.\n.\n.\n.\nanswer a1\n.\nend open=0 waiting=0 run=0\n",
        fault: "",
    },
    // scan-that-waits
    Row {
        text: b"\
            schedule 1 memb 1 1 1 1\nr0 lock\nr0 .\nu0 sync\nu0 .\nu0 .\nu0 .\nu0 .\nu0 .\nr0 unlock\n\
            u0 .\n",
        printed: b"\
            .\nopen r0.1\nask a1\n.\n.\n.\n.\nwait\nclose r0.1\n.\nend open=0 waiting=0 run=0\n",
        fault: "",
    },
    // second-scan
    Row {
        text: b"\
            schedule 1 memb 1 1 1 1\nu0 sync\nu0 .\nu0 .\nu0 .\nu0 .\nr0 lock\nu0 .\nu0 .\nu0 .\n\
            u0 .\nu0 .\nr0 .\nu0 sync\nu0 .\nu0 .\nu0 .\nu0 .\nu0 .\nu0 .\nu0 .\n",
        printed: b"\
            ask a1\n.\n.\n.\n.\n.\n.\n.\n.\nanswer a1\n.\nopen r0.1\nask a2\n.\n.\n.\n.\n.\n.\nwait\n\
            end open=1 waiting=0 run=0\n",
        fault: "",
    },
    // standing-on-a-cut-object
    Row {
        text: b"\
            schedule 1 memb 1 1 1 1\nu0 push c0\nu0 .\nu0 push c0\nu0 .\nr0 lock\nr0 .\nr0 first c0\n\
            u0 cut o2\nr0 next\nr0 next\nr0 touch\nu0 replace o1\nu0 .\nr0 first c0\n",
        printed: b"\
            .\npush c0 o1\n.\npush c0 o2\n.\nopen r0.1\nfirst r0.1 c0 o2\ncut c0 o2\nnext r0.1 o2 o1\n\
            next r0.1 o1 none\ntouch r0.1 o1\n.\nreplace c0 o1 o3\nfirst r0.1 c0 o3\n\
            end open=1 waiting=0 run=0\n",
        fault: "",
    },
    // sharing
    Row {
        text: b"\
            schedule 1 memb 1 2 1 1\nu0 sync\nu1 sync\nu0 .\nu1 .\nu0 .\nu0 .\nu0 .\nu0 .\nu0 .\n\
            u0 .\nu0 .\nu1 .\nu0 .\nu1 .\nu1 .\nu1 .\n",
        printed: b"\
            ask a1\nask a2\n.\nblocked\n.\n.\n.\n.\n.\n.\nanswer a1\nblocked\n.\n.\nanswer a2\n.\n\
            end open=0 waiting=0 run=0\n",
        fault: "",
    },
    // quiescent-state
    Row {
        text: b"\
            schedule 1 qsbr 1 1 1 1\nr0 online\nr0 .\nu0 sync\nu0 .\nu0 .\nu0 .\nu0 .\nu0 .\n\
            r0 quiescent\nu0 .\nr0 .\nu0 .\nu0 .\nu0 .\nr0 offline\n",
        printed: b"\
            .\nopen r0.1\nask a1\n.\n.\n.\n.\nwait\n.\nwait\nclose r0.1; open r0.2\n.\nanswer a1\n\
            .\nclose r0.2\nend open=0 waiting=0 run=0\n",
        fault: "",
    },
    // delayed-announcement
    Row {
        text: b"\
            schedule 1 qsbr 1 1 1 1\nr0 online\nr0 .\nr0 quiescent\nu0 sync\nu0 .\nu0 .\nu0 .\n\
            u0 .\nr0 .\nu0 .\n",
        printed: b"\
            .\nopen r0.1\n.\nask a1\n.\n.\n.\n.\nclose r0.1; open r0.2\nwait\n\
            end open=1 waiting=0 run=0\n",
        fault: "",
    },
    // grace-period-of-another
    Row {
        text: b"\
            schedule 1 memb 1 2 1 1\nu0 start\nu0 poll\nu1 sync\nu1 .\nu1 .\nu1 .\nu1 .\nu1 .\n\
            u1 .\nu1 .\nu1 .\nu1 .\nu0 poll\nu0 poll\n",
        printed: b"\
            ask a1\nwait\nask a2\n.\n.\n.\n.\n.\n.\n.\nanswer a2\n.\nanswer a1\nrefused E6\n\
            end open=0 waiting=0 run=0\n",
        fault: "",
    },
    // cookie-of-odd-number
    Row {
        text: b"\
            schedule 1 memb 1 2 1 1\nu1 sync\nu1 .\nu1 .\nu1 .\nu0 start\nu1 .\nu1 .\nu1 .\nu1 .\n\
            u1 .\nu1 .\nu0 poll\nu1 sync\nu1 .\nu1 .\nu1 .\nu0 poll\nu1 .\nu1 .\nu1 .\nu1 .\nu1 .\n\
            u0 poll\n",
        printed: b"\
            ask a1\n.\n.\n.\nask a2\n.\n.\n.\n.\nanswer a1\n.\nwait\nask a3\n.\n.\n.\nwait\n.\n.\n\
            .\n.\nanswer a3\nanswer a2\nend open=0 waiting=0 run=0\n",
        fault: "",
    },
    // refusals-of-a-quiescent-state-reader
    Row {
        text: b"\
            schedule 1 qsbr 1 1 1 1\nr0 lock\nr0 offline\nr0 online\nr0 lock\nr0 .\nr0 online\n",
        printed: b"\
            refused E9\nrefused E6\n.\nrefused E7\nopen r0.1\nrefused E7\n\
            end open=1 waiting=0 run=0\n",
        fault: "",
    },
    // delayed-reader
    Row {
        text: b"\
            schedule 1 memb 1 1 1 1\nu0 push c0\nu0 .\nr0 lock\nu0 sync\nu0 .\nu0 .\nu0 .\nu0 .\n\
            u0 .\nu0 .\nu0 .\nu0 .\nu0 .\nr0 .\nr0 first c0\nu0 cut o1\nu0 retire o1\nu0 .\nu0 .\n\
            u0 .\nu0 .\nw0 take\nw0 .\nw0 .\nw0 .\nw0 .\nw0 .\nw0 .\nr0 touch\nr0 unlock\nw0 .\n\
            w0 .\nw0 .\nw0 .\nw0 .\nw0 .\nw0 .\n",
        printed: b"\
            .\npush c0 o1\n.\nask a1\n.\n.\n.\n.\n.\n.\n.\nanswer a1\n.\nopen r0.1\n\
            first r0.1 c0 o1\ncut c0 o1\n.\nretire o1\n.\nqueue o1 q0\n.\n.\nask a2\n.\n.\n.\n.\n\
            wait\ntouch r0.1 o1\nclose r0.1\n.\n.\n.\nanswer a2\n.\nrun o1\n.\n\
            end open=0 waiting=0 run=1\n",
        fault: "",
    },
    // newer-section-not-awaited
    Row {
        text: b"\
            schedule 1 memb 1 1 1 1\nu0 push c0\nu0 .\nu0 cut o1\nu0 retire o1\nu0 .\nu0 .\nu0 .\n\
            u0 .\nw0 take\nw0 .\nw0 .\nw0 .\nw0 .\nw0 .\nw0 .\nw0 .\nr0 lock\nr0 .\nw0 .\nw0 .\n\
            w0 .\nw0 .\nw0 .\n",
        printed: b"\
            .\npush c0 o1\ncut c0 o1\n.\nretire o1\n.\nqueue o1 q0\n.\n.\nask a1\n.\n.\n.\n.\n.\n\
            .\n.\nopen r0.1\n.\nanswer a1\n.\nrun o1\n.\nend open=1 waiting=0 run=1\n",
        fault: "",
    },
    // barrier-two-queues
    Row {
        text: b"\
            schedule 1 memb 1 2 2 2\nu0 push c0\nu0 .\nu1 push c1\nu1 .\nu0 cut o1\nu1 cut o2\n\
            u0 retire o1\nu0 .\nu0 .\nu0 .\nu0 .\nu1 retire o2\nu1 .\nu1 .\nu1 .\nu1 .\n\
            u0 barrier\nu0 .\nu0 .\nw0 take\nw0 .\nw0 .\nw0 .\nw0 .\nw0 .\nw0 .\nw0 .\nw0 .\nw0 .\n\
            w0 .\nw0 .\nu0 .\nw0 .\nu0 .\nu0 .\nw1 take\nw1 .\nw1 .\nw1 .\nw1 .\nw1 .\nw1 .\nw1 .\n\
            w1 .\nw1 .\nw1 .\nw1 .\nw1 .\nu0 .\n",
        printed: b"\
            .\npush c0 o1\n.\npush c1 o2\ncut c0 o1\ncut c1 o2\n.\nretire o1\n.\nqueue o1 q0\n.\n\
            .\nretire o2\n.\nqueue o2 q1\n.\nbar b1\n.\nwait\n.\nask a1\n.\n.\n.\n.\n.\n.\n.\n\
            answer a1\n.\nrun o1\nwait\n.\n.\nwait\n.\nask a2\n.\n.\n.\n.\n.\n.\n.\nanswer a2\n.\n\
            run o2\n.\nclear b1\nend open=0 waiting=0 run=2\n",
        fault: "",
    },
    // idle-blocked-busy
    Row {
        text: b"\
            schedule 1 memb 1 1 1 1\nw0 take\nu0 push c0\nu0 cut o1\nu0 .\nu0 cut o1\n\
            u0 retire o1\nw0 take\nu0 .\n",
        printed: b"\
            idle\n.\nrefused E7\npush c0 o1\ncut c0 o1\n.\nblocked\nretire o1\n\
            end open=0 waiting=1 run=0\n",
        fault: "",
    },
    // queued-after-take
    Row {
        text: b"\
            schedule 1 memb 1 1 1 1\nu0 push c0\nu0 .\nu0 push c0\nu0 .\nu0 cut o1\nu0 cut o2\n\
            u0 retire o1\nu0 .\nu0 .\nu0 .\nu0 .\nw0 take\nu0 retire o2\nu0 .\nu0 .\nu0 .\nu0 .\n\
            w0 .\nw0 .\nw0 .\nw0 .\nw0 .\nw0 .\nw0 .\nw0 .\nw0 .\nw0 .\nw0 .\nw0 .\n",
        printed: b"\
            .\npush c0 o1\n.\npush c0 o2\ncut c0 o1\ncut c0 o2\n.\nretire o1\n.\nqueue o1 q0\n.\n\
            .\n.\nretire o2\n.\nqueue o2 q0\n.\nask a1\n.\n.\n.\n.\n.\n.\n.\nanswer a1\n.\nrun o1\n\
            .\nend open=0 waiting=1 run=1\n",
        fault: "",
    },
    // refusals-of-retirement
    Row {
        text: b"\
            schedule 1 memb 1 2 1 2\nu0 retire o1\nu0 retire o0\nu0 push c0\nu0 retire o1\nu0 .\n\
            u0 retire o1\nu0 cut o1\nu1 retire o1\nu1 push c1\nu1 .\nu1 cut o2\nu0 retire o1\n\
            u1 retire o2\nu1 .\nu1 retire o1\nw0 take\nu0 .\nu0 .\nu0 .\nu0 .\nu0 retire o1\n\
            w1 take\nw0 .\nw0 take\nw0 take\nu0 barrier\nu0 barrier\n",
        printed: b"\
            refused E8\nrefused E8\n.\nrefused E7\npush c0 o1\nrefused E8\ncut c0 o1\nrefused E8\n\
            .\npush c1 o2\ncut c1 o2\n.\nblocked\nrefused E6\nrefused E8\nblocked\nretire o1\n.\n\
            queue o1 q0\n.\nrefused E8\nrefused E12\nrefused E6\n.\nrefused E7\nbar b1\n\
            refused E7\nend open=0 waiting=1 run=0\n",
        fault: "",
    },
    // batch-answered-by-another
    Row {
        text: b"\
            schedule 1 memb 1 2 1 1\nu0 push c0\nu0 .\nu0 cut o1\nu0 retire o1\nu0 .\nu0 .\nu0 .\n\
            u0 .\nw0 take\nw0 .\nu1 sync\nu1 .\nu1 .\nw0 .\nu1 .\nu1 .\nu1 .\nu1 .\nu1 .\nu1 .\n\
            u1 .\nw0 .\nw0 .\nw0 .\nw0 .\nu0 barrier\nu0 .\nw0 .\nw0 .\nu0 .\n",
        printed: b"\
            .\npush c0 o1\ncut c0 o1\n.\nretire o1\n.\nqueue o1 q0\n.\n.\nask a1\nask a2\n.\n.\n\
            blocked\n.\n.\n.\n.\n.\nanswer a2\n.\n.\nanswer a1\n.\nrun o1\nbar b1\nwait\n.\n\
            refused E6\nclear b1\nend open=0 waiting=0 run=1\n",
        fault: "",
    },
    // worker-of-quiescent-state-readers
    Row {
        text: b"\
            schedule 1 qsbr 2 1 1 1\nu0 push c0\nu0 .\nr0 online\nr0 .\nr0 first c0\n\
            u0 replace o1\nu0 .\nu0 retire o1\nu0 .\nu0 .\nu0 .\nu0 .\nw0 take\nw0 .\nw0 .\nw0 .\n\
            w0 .\nw0 .\nw0 .\nr0 touch\nr0 quiescent\nw0 .\nr0 .\nw0 .\nr0 first c0\nw0 .\nw0 .\n\
            w0 .\nw0 .\nw0 .\n",
        printed: b"\
            .\npush c0 o1\n.\nopen r0.1\nfirst r0.1 c0 o1\n.\nreplace c0 o1 o2\n.\nretire o1\n.\n\
            queue o1 q0\n.\n.\nask a1\n.\n.\n.\n.\nwait\ntouch r0.1 o1\n.\nwait\n\
            close r0.1; open r0.2\n.\nfirst r0.2 c0 o2\n.\nanswer a1\n.\nrun o1\n.\n\
            end open=1 waiting=0 run=1\n",
        fault: "",
    },
];
