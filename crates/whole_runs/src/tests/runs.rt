//! Whole runs: inputs, and what is due for each behind `splittrace 1` and the input itself.

/// A run: what it shows, its input, and the events and the report that are due.
pub(super) struct Run {
    pub(super) shows: &'static str,
    pub(super) input: &'static str,
    pub(super) output: &'static str,
}

pub(super) const RUNS: [Run; 11] = [
    Run {
        shows: "between two writers",
        input: "splitload 1\n\
         device 1024\n\
         cache 64\n\
         depth 1\n\
         sched fifo\n\
         account 1 0 0\n\
         proc 1 1 0\n\
         proc 1 1 0\n\
         file a 1 65\n\
         call 1 write a 0 4096 66\n\
         call 2 write a 0 4096 67\n\
         go c1 4\n\
         go wb 2\n\
         go c2 4\n\
         end\n",
        output: "events 16\n\
         enter c1 0\n\
         admit c1\n\
         put c1 0 0 0 4096 66\n\
         ret c1 done\n\
         serve wb 0 0 1\n\
         add wb pages 526 1 0 0\n\
         enter c2 0\n\
         admit c2\n\
         put c2 0 0 0 4096 67\n\
         ret c2 done\n\
         send dq 0 52\n\
         done dn0 0 ok\n\
         serve wb 0 0 1\n\
         add wb pages 526 1 0 0\n\
         send dq 1 22\n\
         done dn0 1 ok\n\
         report 1\n\
         requests 2\n\
         req 0 pages 526 1 done 52 1:52\n\
         req 1 pages 526 1 done 22 2:22\n\
         proc 1 billed 52\n\
         proc 2 billed 22\n\
         made c1 4\n\
         made c2 4\n\
         made wb 4\n\
         made cm 0\n\
         made dq 2\n\
         made dn 2\n\
         made tk 0\n\
         clock 74\n\
         end\n",
    },
    Run {
        shows: "done the other way round",
        input: "splitload 1\n\
         device 1024\n\
         cache 64\n\
         depth 2\n\
         sched fifo\n\
         account 1 0 0\n\
         proc 1 1 0\n\
         proc 1 1 0\n\
         file a 1 65\n\
         file b 1 65\n\
         call 1 write a 0 4096 66\n\
         call 2 write b 0 4096 66\n\
         go c1 4\n\
         go c2 4\n\
         go wb 4\n\
         go dq 2\n\
         go dn1 1\n\
         end\n",
        output: "events 16\n\
         enter c1 0\n\
         admit c1\n\
         put c1 0 0 0 4096 66\n\
         ret c1 done\n\
         enter c2 0\n\
         admit c2\n\
         put c2 1 0 0 4096 66\n\
         ret c2 done\n\
         serve wb 0 0 1\n\
         add wb pages 526 1 0 0\n\
         serve wb 1 0 1\n\
         add wb pages 527 1 1 0\n\
         send dq 0 52\n\
         send dq 1 2\n\
         done dn1 1 ok\n\
         done dn0 0 ok\n\
         report 1\n\
         requests 2\n\
         req 0 pages 526 1 done 52 1:52\n\
         req 1 pages 527 1 done 2 2:2\n\
         proc 1 billed 52\n\
         proc 2 billed 2\n\
         made c1 4\n\
         made c2 4\n\
         made wb 4\n\
         made cm 0\n\
         made dq 2\n\
         made dn 2\n\
         made tk 0\n\
         clock 54\n\
         end\n",
    },
    Run {
        shows: "one overwrite",
        input: "splitload 1\n\
         device 1024\n\
         cache 64\n\
         depth 1\n\
         sched fifo\n\
         account 1 0 0\n\
         proc 1 1 0\n\
         file a 1 65\n\
         call 1 write a 0 4096 66\n\
         end\n",
        output: "events 8\n\
         enter c1 0\n\
         admit c1\n\
         put c1 0 0 0 4096 66\n\
         ret c1 done\n\
         serve wb 0 0 1\n\
         add wb pages 526 1 0 0\n\
         send dq 0 52\n\
         done dn0 0 ok\n\
         report 1\n\
         requests 1\n\
         req 0 pages 526 1 done 52 1:52\n\
         proc 1 billed 52\n\
         made c1 4\n\
         made wb 2\n\
         made cm 0\n\
         made dq 1\n\
         made dn 1\n\
         made tk 0\n\
         clock 52\n\
         end\n",
    },
    Run {
        shows: "read through a small cache",
        input: "splitload 1\n\
         device 1024\n\
         cache 4\n\
         depth 2\n\
         sched fifo\n\
         account 1 0 0\n\
         proc 1 1 0\n\
         proc 1 1 0\n\
         file log 5 65\n\
         file note 1 66\n\
         call 1 write log 0 8192 67\n\
         call 2 read log 4096 12288\n\
         call 2 write note 100 8 68\n\
         end\n",
        output: "events 33\n\
         enter c1 0\n\
         admit c1\n\
         put c1 0 0 0 4096 67\n\
         put c1 0 1 0 4096 67\n\
         ret c1 done\n\
         enter c2 0\n\
         admit c2\n\
         get c2 0 1 0 4096 274432\n\
         add c2 read 528 1 0 2\n\
         serve wb 0 0 2\n\
         add wb pages 526 2 0 0\n\
         send dq 0 52\n\
         send dq 1 24\n\
         done dn0 0 ok\n\
         get c2 0 2 0 4096 266240\n\
         add c2 read 529 1 0 3\n\
         send dq 2 22\n\
         done dn0 1 ok\n\
         done dn0 2 ok\n\
         get c2 0 3 0 4096 266240\n\
         ret c2 count 12288 806912\n\
         enter c2 1\n\
         admit c2\n\
         evict c2 0 0\n\
         add c2 read 531 1 1 0\n\
         send dq 3 22\n\
         done dn0 3 ok\n\
         put c2 1 0 100 108 68\n\
         ret c2 done\n\
         serve wb 1 0 1\n\
         add wb pages 531 1 1 0\n\
         send dq 4 22\n\
         done dn0 4 ok\n\
         report 1\n\
         requests 5\n\
         req 0 read 528 1 done 52 2:52\n\
         req 1 pages 526 2 done 24 1:24\n\
         req 2 read 529 1 done 22 2:22\n\
         req 3 read 531 1 done 22 2:22\n\
         req 4 pages 531 1 done 22 2:22\n\
         proc 1 billed 24\n\
         proc 2 billed 118\n\
         made c1 5\n\
         made c2 14\n\
         made wb 4\n\
         made cm 0\n\
         made dq 5\n\
         made dn 5\n\
         made tk 0\n\
         clock 142\n\
         end\n",
    },
    Run {
        shows: "one page at a time is dirty",
        input: "splitload 1\n\
         device 1024\n\
         cache 2\n\
         depth 1\n\
         sched fifo\n\
         account 1 0 0\n\
         proc 1 1 0\n\
         file a 3 65\n\
         call 1 write a 0 12288 66\n\
         end\n",
        output: "events 19\n\
         enter c1 0\n\
         admit c1\n\
         put c1 0 0 0 4096 66\n\
         serve wb 0 0 1\n\
         add wb pages 526 1 0 0\n\
         send dq 0 52\n\
         done dn0 0 ok\n\
         put c1 0 1 0 4096 66\n\
         serve wb 0 1 1\n\
         add wb pages 527 1 0 1\n\
         send dq 1 2\n\
         done dn0 1 ok\n\
         evict c1 0 0\n\
         put c1 0 2 0 4096 66\n\
         ret c1 done\n\
         serve wb 0 2 1\n\
         add wb pages 528 1 0 2\n\
         send dq 2 2\n\
         done dn0 2 ok\n\
         report 1\n\
         requests 3\n\
         req 0 pages 526 1 done 52 1:52\n\
         req 1 pages 527 1 done 2 1:2\n\
         req 2 pages 528 1 done 2 1:2\n\
         proc 1 billed 56\n\
         made c1 7\n\
         made wb 6\n\
         made cm 0\n\
         made dq 3\n\
         made dn 3\n\
         made tk 0\n\
         clock 56\n\
         end\n",
    },
    Run {
        shows: "a part of a page is put, and read back",
        input: "splitload 1\n\
         device 1024\n\
         cache 64\n\
         depth 1\n\
         sched fifo\n\
         account 1 0 0\n\
         proc 1 1 0\n\
         file a 1 65\n\
         call 1 write a 10 5 66\n\
         call 1 read a 0 20\n\
         end\n",
        output: "events 15\n\
         enter c1 0\n\
         admit c1\n\
         add c1 read 526 1 0 0\n\
         send dq 0 52\n\
         done dn0 0 ok\n\
         put c1 0 0 10 15 66\n\
         ret c1 done\n\
         enter c1 1\n\
         admit c1\n\
         get c1 0 0 0 20 1305\n\
         ret c1 count 20 1305\n\
         serve wb 0 0 1\n\
         add wb pages 526 1 0 0\n\
         send dq 1 22\n\
         done dn0 1 ok\n\
         report 1\n\
         requests 2\n\
         req 0 read 526 1 done 52 1:52\n\
         req 1 pages 526 1 done 22 1:22\n\
         proc 1 billed 74\n\
         made c1 9\n\
         made wb 2\n\
         made cm 0\n\
         made dq 2\n\
         made dn 2\n\
         made tk 0\n\
         clock 74\n\
         end\n",
    },
    Run {
        shows: "three writers",
        input: "splitload 1\n\
         device 1024\n\
         cache 64\n\
         depth 1\n\
         sched fifo\n\
         account 1 0 0\n\
         proc 1 1 0\n\
         proc 1 1 0\n\
         proc 1 1 0\n\
         file a 1 65\n\
         call 1 write a 0 4096 66\n\
         call 2 write a 0 4096 67\n\
         call 3 write a 0 4096 68\n\
         end\n",
        output: "events 16\n\
         enter c1 0\n\
         admit c1\n\
         put c1 0 0 0 4096 66\n\
         ret c1 done\n\
         enter c2 0\n\
         admit c2\n\
         put c2 0 0 0 4096 67\n\
         ret c2 done\n\
         enter c3 0\n\
         admit c3\n\
         put c3 0 0 0 4096 68\n\
         ret c3 done\n\
         serve wb 0 0 1\n\
         add wb pages 526 1 0 0\n\
         send dq 0 52\n\
         done dn0 0 ok\n\
         report 1\n\
         requests 1\n\
         req 0 pages 526 1 done 52 1:18 2:17 3:17\n\
         proc 1 billed 18\n\
         proc 2 billed 17\n\
         proc 3 billed 17\n\
         made c1 4\n\
         made c2 4\n\
         made c3 4\n\
         made wb 2\n\
         made cm 0\n\
         made dq 1\n\
         made dn 1\n\
         made tk 0\n\
         clock 52\n\
         end\n",
    },
    Run {
        shows: "two tenants",
        input: "splitload 1\n\
         device 1024\n\
         cache 64\n\
         depth 1\n\
         sched fifo\n\
         account 10 1000 1000\n\
         account 10 1000 1000\n\
         proc 1 1 0\n\
         proc 2 1 0\n\
         file ledger 3 65\n\
         file mail 1 65\n\
         call 1 write ledger 0 12288 66\n\
         call 2 write mail 0 4096 67\n\
         call 2 write ledger 4096 4096 68\n\
         end\n",
        output: "events 22\n\
         enter c1 0\n\
         admit c1\n\
         put c1 0 0 0 4096 66\n\
         put c1 0 1 0 4096 66\n\
         put c1 0 2 0 4096 66\n\
         ret c1 done\n\
         enter c2 0\n\
         admit c2\n\
         put c2 1 0 0 4096 67\n\
         ret c2 done\n\
         enter c2 1\n\
         admit c2\n\
         put c2 0 1 0 4096 68\n\
         ret c2 done\n\
         serve wb 0 0 3\n\
         add wb pages 526 3 0 0\n\
         serve wb 1 0 1\n\
         add wb pages 529 1 1 0\n\
         send dq 0 56\n\
         done dn0 0 ok\n\
         send dq 1 2\n\
         done dn0 1 ok\n\
         report 1\n\
         requests 2\n\
         req 0 pages 526 3 done 56 1:28 2:28\n\
         req 1 pages 529 1 done 2 2:2\n\
         proc 1 billed 28\n\
         proc 2 billed 30\n\
         made c1 6\n\
         made c2 8\n\
         made wb 4\n\
         made cm 0\n\
         made dq 2\n\
         made dn 2\n\
         made tk 0\n\
         clock 58\n\
         end\n",
    },
    Run {
        shows: "nobody calls",
        input: "splitload 1\n\
         device 1024\n\
         cache 2\n\
         depth 1\n\
         sched fifo\n\
         end\n",
        output: "events 0\n\
         report 1\n\
         requests 0\n\
         made wb 0\n\
         made cm 0\n\
         made dq 0\n\
         made dn 0\n\
         made tk 0\n\
         clock 0\n\
         end\n",
    },
    Run {
        shows: "a run ends after sixteen pages",
        input: "splitload 1\n\
         device 1024\n\
         cache 64\n\
         depth 1\n\
         sched fifo\n\
         account 1 0 0\n\
         proc 1 1 0\n\
         file a 17 65\n\
         call 1 write a 0 69632 66\n\
         end\n",
        output: "events 28\n\
         enter c1 0\n\
         admit c1\n\
         put c1 0 0 0 4096 66\n\
         put c1 0 1 0 4096 66\n\
         put c1 0 2 0 4096 66\n\
         put c1 0 3 0 4096 66\n\
         put c1 0 4 0 4096 66\n\
         put c1 0 5 0 4096 66\n\
         put c1 0 6 0 4096 66\n\
         put c1 0 7 0 4096 66\n\
         put c1 0 8 0 4096 66\n\
         put c1 0 9 0 4096 66\n\
         put c1 0 10 0 4096 66\n\
         put c1 0 11 0 4096 66\n\
         put c1 0 12 0 4096 66\n\
         put c1 0 13 0 4096 66\n\
         put c1 0 14 0 4096 66\n\
         put c1 0 15 0 4096 66\n\
         put c1 0 16 0 4096 66\n\
         ret c1 done\n\
         serve wb 0 0 16\n\
         add wb pages 526 16 0 0\n\
         serve wb 0 16 1\n\
         add wb pages 542 1 0 16\n\
         send dq 0 82\n\
         done dn0 0 ok\n\
         send dq 1 2\n\
         done dn0 1 ok\n\
         report 1\n\
         requests 2\n\
         req 0 pages 526 16 done 82 1:82\n\
         req 1 pages 542 1 done 2 1:2\n\
         proc 1 billed 84\n\
         made c1 20\n\
         made wb 4\n\
         made cm 0\n\
         made dq 2\n\
         made dn 2\n\
         made tk 0\n\
         clock 84\n\
         end\n",
    },
    Run {
        shows: "turns of idle actors",
        input: "splitload 1\n\
         device 1024\n\
         cache 64\n\
         depth 1\n\
         sched fifo\n\
         account 1 0 0\n\
         proc 1 1 0\n\
         file a 1 65\n\
         file b 2 66\n\
         call 1 write b 4096 4096 67\n\
         call 1 write a 0 4096 68\n\
         go tk 3\n\
         go cm 65536\n\
         go dn15 1\n\
         go c1 9\n\
         go wb 2\n\
         go dq 65536\n\
         go wb 9\n\
         end\n",
        output: "events 16\n\
         enter c1 0\n\
         admit c1\n\
         put c1 1 1 0 4096 67\n\
         ret c1 done\n\
         enter c1 1\n\
         admit c1\n\
         put c1 0 0 0 4096 68\n\
         ret c1 done\n\
         serve wb 0 0 1\n\
         add wb pages 526 1 0 0\n\
         send dq 0 52\n\
         serve wb 1 1 1\n\
         add wb pages 528 1 1 1\n\
         done dn0 0 ok\n\
         send dq 1 22\n\
         done dn0 1 ok\n\
         report 1\n\
         requests 2\n\
         req 0 pages 526 1 done 52 1:52\n\
         req 1 pages 528 1 done 22 1:22\n\
         proc 1 billed 74\n\
         made c1 8\n\
         made wb 4\n\
         made cm 0\n\
         made dq 2\n\
         made dn 2\n\
         made tk 0\n\
         clock 74\n\
         end\n",
    },
];
