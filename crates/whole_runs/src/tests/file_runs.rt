//! Whole runs with files that are made, grow and are dropped.
use super::runs::Run;

pub(super) const FILE_RUNS: [Run; 6] = [
    Run {
        shows: "a disk gets full",
        input: "splitload 1\n\
         device 1024\n\
         cache 64\n\
         depth 1\n\
         sched fifo\n\
         account 1 0 0\n\
         proc 1 1 0\n\
         file a 497 65\n\
         file b 0 0\n\
         call 1 write b 0 8192 66\n\
         end\n",
        output: "events 25\n\
         enter c1 0\n\
         admit c1\n\
         put c1 1 0 0 4096 66\n\
         ret c1 nospace 4096\n\
         serve wb 1 0 1\n\
         map wb 1 1 0 1 1023 1 4096\n\
         add wb pages 1023 1 1 0\n\
         seal cm 1 2\n\
         add cm log 262 3 1\n\
         send dq 0 52\n\
         done dn0 0 ok\n\
         send dq 1 56\n\
         done dn0 1 ok\n\
         add cm commit 525 1 1\n\
         send dq 2 52\n\
         done dn0 2 ok\n\
         add cm home 1 1 1\n\
         add cm home 7 1 1\n\
         send dq 3 52\n\
         done dn0 3 ok\n\
         send dq 4 22\n\
         done dn0 4 ok\n\
         add cm clear 525 1 1\n\
         send dq 5 52\n\
         done dn0 5 ok\n\
         report 1\n\
         requests 6\n\
         req 0 pages 1023 1 done 52 1:52\n\
         req 1 log 262 3 done 56 1:56\n\
         req 2 commit 525 1 done 52 1:52\n\
         req 3 home 1 1 done 52 1:52\n\
         req 4 home 7 1 done 22 1:22\n\
         req 5 clear 525 1 done 52 1:52\n\
         proc 1 billed 286\n\
         made c1 4\n\
         made wb 3\n\
         made cm 6\n\
         made dq 6\n\
         made dn 6\n\
         made tk 0\n\
         clock 286\n\
         end\n",
    },
    Run {
        shows: "a file is dropped when it is served, and nothing is left to do",
        input: "splitload 1\n\
         device 1024\n\
         cache 64\n\
         depth 1\n\
         sched fifo\n\
         account 1 0 0\n\
         proc 1 1 0\n\
         proc 1 1 0\n\
         file a 0 0\n\
         call 1 write a 0 4096 66\n\
         call 2 unlink a\n\
         go c1 4\n\
         go wb 1\n\
         go c2 4\n\
         end\n",
        output: "events 29\n\
         enter c1 0\n\
         admit c1\n\
         put c1 0 0 0 4096 66\n\
         ret c1 done\n\
         serve wb 0 0 1\n\
         enter c2 0\n\
         admit c2\n\
         drop c2 0 0\n\
         ret c2 done\n\
         skip wb\n\
         seal cm 1 3\n\
         add cm log 262 4 1\n\
         send dq 0 58\n\
         done dn0 0 ok\n\
         add cm commit 525 1 1\n\
         send dq 1 52\n\
         done dn0 1 ok\n\
         add cm home 1 1 1\n\
         add cm home 2 1 1\n\
         add cm home 6 1 1\n\
         send dq 2 52\n\
         done dn0 2 ok\n\
         send dq 3 2\n\
         done dn0 3 ok\n\
         send dq 4 22\n\
         done dn0 4 ok\n\
         add cm clear 525 1 1\n\
         send dq 5 52\n\
         done dn0 5 ok\n\
         report 1\n\
         requests 6\n\
         req 0 log 262 4 done 58 2:58\n\
         req 1 commit 525 1 done 52 2:52\n\
         req 2 home 1 1 done 52 2:52\n\
         req 3 home 2 1 done 2 2:2\n\
         req 4 home 6 1 done 22 2:22\n\
         req 5 clear 525 1 done 52 2:52\n\
         proc 1 billed 0\n\
         proc 2 billed 238\n\
         made c1 4\n\
         made c2 4\n\
         made wb 2\n\
         made cm 7\n\
         made dq 6\n\
         made dn 6\n\
         made tk 0\n\
         clock 238\n\
         end\n",
    },
    Run {
        shows: "a file as great as files may be",
        input: "splitload 1\n\
         device 1024\n\
         cache 64\n\
         depth 1\n\
         sched fifo\n\
         account 1 0 0\n\
         proc 1 1 0\n\
         file a 0 0\n\
         call 1 write a 4124672 4096 1\n\
         call 1 write a 4128768 1 1\n\
         end\n",
        output: "events 28\n\
         enter c1 0\n\
         admit c1\n\
         put c1 0 1007 0 4096 1\n\
         ret c1 done\n\
         enter c1 1\n\
         admit c1\n\
         ret c1 toobig\n\
         serve wb 0 1007 1\n\
         map wb 0 0 1007 1 526 1 4128768\n\
         add wb pages 526 1 0 1007\n\
         seal cm 1 2\n\
         add cm log 262 3 1\n\
         send dq 0 52\n\
         done dn0 0 ok\n\
         send dq 1 56\n\
         done dn0 1 ok\n\
         add cm commit 525 1 1\n\
         send dq 2 52\n\
         done dn0 2 ok\n\
         add cm home 1 1 1\n\
         add cm home 6 1 1\n\
         send dq 3 52\n\
         done dn0 3 ok\n\
         send dq 4 22\n\
         done dn0 4 ok\n\
         add cm clear 525 1 1\n\
         send dq 5 52\n\
         done dn0 5 ok\n\
         report 1\n\
         requests 6\n\
         req 0 pages 526 1 done 52 1:52\n\
         req 1 log 262 3 done 56 1:56\n\
         req 2 commit 525 1 done 52 1:52\n\
         req 3 home 1 1 done 52 1:52\n\
         req 4 home 6 1 done 22 1:22\n\
         req 5 clear 525 1 done 52 1:52\n\
         proc 1 billed 286\n\
         made c1 7\n\
         made wb 3\n\
         made cm 6\n\
         made dq 6\n\
         made dn 6\n\
         made tk 0\n\
         clock 286\n\
         end\n",
    },
    Run {
        shows: "names that are there, and names that aren't",
        input: "splitload 1\n\
         device 1024\n\
         cache 64\n\
         depth 1\n\
         sched fifo\n\
         account 1 0 0\n\
         proc 1 1 0\n\
         file a 0 0\n\
         call 1 creat a\n\
         call 1 read zz 0 1\n\
         call 1 unlink zz\n\
         end\n",
        output: "events 9\n\
         enter c1 0\n\
         admit c1\n\
         ret c1 exists\n\
         enter c1 1\n\
         admit c1\n\
         ret c1 nofile\n\
         enter c1 2\n\
         admit c1\n\
         ret c1 nofile\n\
         report 1\n\
         requests 0\n\
         proc 1 billed 0\n\
         made c1 9\n\
         made wb 0\n\
         made cm 0\n\
         made dq 0\n\
         made dn 0\n\
         made tk 0\n\
         clock 0\n\
         end\n",
    },
    Run {
        shows: "a file grows on a disk of version 2",
        input: "splitload 2\n\
         device 2048\n\
         cache 64\n\
         depth 1\n\
         sched fifo\n\
         account 1 0 0\n\
         proc 1 1 0\n\
         file a 0 0\n\
         call 1 write a 0 4096 66\n\
         end\n",
        output: "events 25\n\
         enter c1 0\n\
         admit c1\n\
         put c1 0 0 0 4096 66\n\
         ret c1 done\n\
         serve wb 0 0 1\n\
         map wb 0 0 0 1 1318 1 4096\n\
         add wb pages 1318 1 0 0\n\
         seal cm 1 2\n\
         add cm log 262 3 1\n\
         send dq 0 102\n\
         done dn0 0 ok\n\
         send dq 1 106\n\
         done dn0 1 ok\n\
         add cm commit 525 1 1\n\
         send dq 2 52\n\
         done dn0 2 ok\n\
         add cm home 1 1 1\n\
         add cm home 6 1 1\n\
         send dq 3 52\n\
         done dn0 3 ok\n\
         send dq 4 22\n\
         done dn0 4 ok\n\
         add cm clear 525 1 1\n\
         send dq 5 52\n\
         done dn0 5 ok\n\
         report 1\n\
         requests 6\n\
         req 0 pages 1318 1 done 102 1:102\n\
         req 1 log 262 3 done 106 1:106\n\
         req 2 commit 525 1 done 52 1:52\n\
         req 3 home 1 1 done 52 1:52\n\
         req 4 home 6 1 done 22 1:22\n\
         req 5 clear 525 1 done 52 1:52\n\
         proc 1 billed 386\n\
         made c1 4\n\
         made wb 3\n\
         made cm 6\n\
         made dq 6\n\
         made dn 6\n\
         made tk 0\n\
         clock 386\n\
         end\n",
    },
    Run {
        shows: "a hole is read, and a file is dropped when it is served",
        input: "splitload 1\n\
         device 1024\n\
         cache 64\n\
         depth 1\n\
         sched fifo\n\
         account 1 0 0\n\
         proc 1 1 0\n\
         proc 1 1 0\n\
         file draft 0 0\n\
         call 1 creat log\n\
         call 1 write log 8192 4096 67\n\
         call 1 read log 4096 8192\n\
         call 2 write draft 0 4096 66\n\
         call 2 unlink draft\n\
         call 2 read draft 0 1\n\
         go c2 4\n\
         go wb 1\n\
         go c2 4\n\
         go wb 1\n\
         end\n",
        output: "events 50\n\
         enter c2 0\n\
         admit c2\n\
         put c2 0 0 0 4096 66\n\
         ret c2 done\n\
         serve wb 0 0 1\n\
         enter c2 1\n\
         admit c2\n\
         drop c2 0 0\n\
         ret c2 done\n\
         skip wb\n\
         enter c1 0\n\
         admit c1\n\
         make c1 0 1\n\
         ret c1 done\n\
         enter c1 1\n\
         admit c1\n\
         put c1 1 2 0 4096 67\n\
         ret c1 done\n\
         enter c1 2\n\
         admit c1\n\
         get c1 1 1 0 4096 0\n\
         get c1 1 2 0 4096 274432\n\
         ret c1 count 8192 274432\n\
         enter c2 2\n\
         admit c2\n\
         ret c2 nofile\n\
         serve wb 1 2 1\n\
         map wb 0 1 2 1 526 1 12288\n\
         add wb pages 526 1 1 2\n\
         seal cm 1 3\n\
         add cm log 262 4 1\n\
         send dq 0 52\n\
         done dn0 0 ok\n\
         send dq 1 58\n\
         done dn0 1 ok\n\
         add cm commit 525 1 1\n\
         send dq 2 52\n\
         done dn0 2 ok\n\
         add cm home 1 1 1\n\
         add cm home 2 1 1\n\
         add cm home 6 1 1\n\
         send dq 3 52\n\
         done dn0 3 ok\n\
         send dq 4 2\n\
         done dn0 4 ok\n\
         send dq 5 22\n\
         done dn0 5 ok\n\
         add cm clear 525 1 1\n\
         send dq 6 52\n\
         done dn0 6 ok\n\
         report 1\n\
         requests 7\n\
         req 0 pages 526 1 done 52 1:52\n\
         req 1 log 262 4 done 58 1:29 2:29\n\
         req 2 commit 525 1 done 52 1:26 2:26\n\
         req 3 home 1 1 done 52 1:26 2:26\n\
         req 4 home 2 1 done 2 1:1 2:1\n\
         req 5 home 6 1 done 22 1:11 2:11\n\
         req 6 clear 525 1 done 52 1:26 2:26\n\
         proc 1 billed 171\n\
         proc 2 billed 119\n\
         made c1 13\n\
         made c2 11\n\
         made wb 5\n\
         made cm 7\n\
         made dq 7\n\
         made dn 7\n\
         made tk 0\n\
         clock 290\n\
         end\n",
    },
];
