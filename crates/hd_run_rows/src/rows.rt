// Worked rows: scripts, and all that the program writes for them, each with `;` for a line end.
use crate::row::{Row, SOLO, fails};
use hd_model::Memory;
use std::process::Abort;
use std::sync::Wait;
use std::thread::Threads;

// What registers, statics, the board and handles hold, and what is refused.
static WITHOUT_COLLECTIONS: [(&str, &str); 9] = [
    ("", "end handles 0 objects 0 collections 0;"),
    (
        "hget r0 h0;hnew h0 strong r0;hget r1 h0;",
        "0 1 empty;0 2 ok;0 3 null;end handles 1 objects 0 collections 0;",
    ),
    (
        "new r0 0",
        "0 1 obj 0.1;end handles 0 objects 1 collections 0;",
    ),
    (
        "new r0 2;hnew h0 strong r0;drop r0;hget r1 h0;",
        "0 1 obj 0.1;0 2 ok;0 3 ok;0 4 obj 0.1;end handles 1 objects 1 collections 0;",
    ),
    (
        "new r0 0;hnew h0 strong r0;hput 0 h0;hfree h0;hpick h1 0;hget r1 h1;hpick h2 1;\
         hget r2 h2;",
        "0 1 obj 0.1;0 2 ok;0 3 ok;0 4 ok;0 5 ok;0 6 notlive;0 7 ok;0 8 empty;\
         end handles 0 objects 1 collections 0;",
    ),
    (
        "new r0 0;new r1 0;hnew h0 strong r0;hput 0 h0;hfree h0;hnew h1 strong r1;hpick h2 0;\
         hget r2 h2;",
        "0 1 obj 0.1;0 2 obj 0.2;0 3 ok;0 4 ok;0 5 ok;0 6 ok;0 7 ok;0 8 obj 0.2;\
         end handles 1 objects 2 collections 0;",
    ),
    (
        "set r0 0 r1;new r0 2;set r0 2 r0;hnew h0 strong r0;hsec h0 r0;hvar h0 long;addr h0;\
         hfree h1;gen r1;",
        "0 1 nullref;0 2 obj 0.1;0 3 badfield;0 4 ok;0 5 wrongkind;0 6 wrongkind;0 7 wrongkind;\
         0 8 empty;0 9 nullref;end handles 1 objects 1 collections 0;",
    ),
    (
        "new r0 0;new r1 0;hnew h0 dep r0 r1;hset h0 r1;hset h0 r2;hdep r3 h0;hsec h0 r1;\
         hnew h1 dep r2 r1;hdep r3 h1;",
        "0 1 obj 0.1;0 2 obj 0.2;0 3 ok;0 4 wrongkind;0 5 ok;0 6 null;0 7 nullref;0 8 ok;\
         0 9 null;end handles 2 objects 2 collections 0;",
    ),
    (
        "caller 1;sget r0 0;hpick h0 0;hget r1 h0;caller 0;new r0 0;sput 0 r0;hnew h0 strong r0;\
         hput 0 h0;",
        "0 1 obj 0.1;0 2 ok;0 3 ok;0 4 ok;1 1 obj 0.1;1 2 ok;1 3 obj 0.1;\
         end handles 1 objects 1 collections 0;",
    ),
];

// What handles of each kind keep, and what they lose.
static HELD: [(&str, &str); 10] = [
    (
        "new r0 2;hnew h0 strong r0;drop r0;collect 2;hget r1 h0;",
        "0 1 obj 0.1;0 2 ok;0 3 ok;0 4 kept 1 removed 0 short 0 long 0 dep 0 revived 0;\
         0 5 obj 0.1;end handles 1 objects 1 collections 1;",
    ),
    (
        "new r0 2;hnew h0 short r0;drop r0;collect 2;hget r1 h0;",
        "0 1 obj 0.1;0 2 ok;0 3 ok;0 4 kept 0 removed 1 short 1 long 0 dep 0 revived 0;0 5 null;\
         end handles 1 objects 0 collections 1;",
    ),
    (
        "new r0 0;hnew h0 var r0 strong;drop r0;collect 0;hvar h0 short;collect 1;hget r1 h0;",
        "0 1 obj 0.1;0 2 ok;0 3 ok;0 4 kept 1 removed 0 short 0 long 0 dep 0 revived 0;0 5 ok;\
         0 6 kept 0 removed 1 short 1 long 0 dep 0 revived 0;0 7 null;\
         end handles 1 objects 0 collections 2;",
    ),
    (
        "new r0 0;hnew h0 ref r0;drop r0;collect 0;hdown h0;hdown h0;collect 1;hget r1 h0;",
        "0 1 obj 0.1;0 2 ok;0 3 ok;0 4 kept 1 removed 0 short 0 long 0 dep 0 revived 0;\
         0 5 value 0;0 6 countzero;0 7 kept 0 removed 1 short 0 long 1 dep 0 revived 0;0 8 null;\
         end handles 1 objects 0 collections 2;",
    ),
    (
        "new r0 0;new r1 0;new r2 0;new r3 0;hnew h0 dep r2 r3;hnew h1 dep r1 r2;\
         hnew h2 dep r0 r1;drop r1;drop r2;drop r3;collect 2;drop r0;collect 2;",
        "0 1 obj 0.1;0 2 obj 0.2;0 3 obj 0.3;0 4 obj 0.4;0 5 ok;0 6 ok;0 7 ok;0 8 ok;0 9 ok;\
         0 10 ok;0 11 kept 4 removed 0 short 0 long 0 dep 0 revived 0;0 12 ok;\
         0 13 kept 0 removed 4 short 0 long 0 dep 3 revived 0;\
         end handles 3 objects 0 collections 2;",
    ),
    (
        "new r0 0;new r1 0;hnew h0 dep r0 r1;hnew h1 dep r1 r0;drop r0;drop r1;collect 0;",
        "0 1 obj 0.1;0 2 obj 0.2;0 3 ok;0 4 ok;0 5 ok;0 6 ok;\
         0 7 kept 0 removed 2 short 0 long 0 dep 2 revived 0;\
         end handles 2 objects 0 collections 1;",
    ),
    (
        "new r0 0 fin;new r1 0;hnew h0 dep r0 r1;hnew h1 short r1;drop r0;drop r1;collect 0;",
        "0 1 obj 0.1;0 2 obj 0.2;0 3 ok;0 4 ok;0 5 ok;0 6 ok;\
         0 7 kept 2 removed 0 short 1 long 0 dep 0 revived 1;\
         end handles 2 objects 2 collections 1;",
    ),
    (
        "new r0 0;collect 0;collect 1;new r1 0;hnew h0 dep r0 r1;drop r0;drop r1;collect 0;\
         hdep r2 h0;",
        "0 1 obj 0.1;0 2 kept 1 removed 0 short 0 long 0 dep 0 revived 0;\
         0 3 kept 1 removed 0 short 0 long 0 dep 0 revived 0;0 4 obj 0.2;0 5 ok;0 6 ok;0 7 ok;\
         0 8 kept 1 removed 0 short 0 long 0 dep 0 revived 0;0 9 obj 0.2;\
         end handles 1 objects 2 collections 3;",
    ),
    (
        "new r0 0;new r1 0;cadd r0 r1;cadd r0 r1;drop r1;collect 2;cfind r2 r0;drop r2;drop r0;\
         collect 2;new r0 0;cfind r2 r0;cremove r0;",
        "0 1 obj 0.1;0 2 obj 0.2;0 3 ok;0 4 present;0 5 ok;\
         0 6 kept 2 removed 0 short 0 long 0 dep 0 revived 0;0 7 obj 0.2;0 8 ok;0 9 ok;\
         0 10 kept 0 removed 2 short 0 long 0 dep 1 revived 0;0 11 obj 0.3;0 12 absent;\
         0 13 absent;end handles 0 objects 1 collections 2;",
    ),
    (
        "new r0 0;cadd r0 r0;drop r0;collect 0;",
        "0 1 obj 0.1;0 2 ok;0 3 ok;0 4 kept 0 removed 1 short 0 long 0 dep 1 revived 0;\
         end handles 0 objects 0 collections 1;",
    ),
];

// What is finalized, and what handles reference before and after. Collections of all generations
// reply the same.
static FINALIZED: [(&str, &str); 7] = [
    (
        "new r0 0 fin;hnew h0 short r0;hnew h1 long r0;drop r0;collect 0;hget r1 h0;hget r2 h1;",
        "0 1 obj 0.1;0 2 ok;0 3 ok;0 4 ok;0 5 kept 1 removed 0 short 1 long 0 dep 0 revived 1;\
         0 6 null;0 7 obj 0.1;end handles 2 objects 1 collections 1;",
    ),
    (
        "new r0 0 fin;hnew h0 short r0;hnew h1 long r0;drop r0;collect 2;hget r1 h0;hget r2 h1;",
        "0 1 obj 0.1;0 2 ok;0 3 ok;0 4 ok;0 5 kept 1 removed 0 short 1 long 0 dep 0 revived 1;\
         0 6 null;0 7 obj 0.1;end handles 2 objects 1 collections 1;",
    ),
    (
        "new r0 0 fin;hnew h0 short r0;hnew h1 long r0;drop r0;collect 0;hget r1 h0;hget r2 h1;\
         final r3;drop r2;drop r3;collect 2;hget r1 h1;",
        "0 1 obj 0.1;0 2 ok;0 3 ok;0 4 ok;0 5 kept 1 removed 0 short 1 long 0 dep 0 revived 1;\
         0 6 null;0 7 obj 0.1;0 8 obj 0.1;0 9 ok;0 10 ok;\
         0 11 kept 0 removed 1 short 0 long 1 dep 0 revived 0;0 12 null;\
         end handles 2 objects 0 collections 2;",
    ),
    (
        "new r0 0 fin;hnew h0 short r0;hnew h1 long r0;drop r0;collect 2;hget r1 h0;hget r2 h1;\
         final r3;drop r2;drop r3;collect 2;hget r1 h1;",
        "0 1 obj 0.1;0 2 ok;0 3 ok;0 4 ok;0 5 kept 1 removed 0 short 1 long 0 dep 0 revived 1;\
         0 6 null;0 7 obj 0.1;0 8 obj 0.1;0 9 ok;0 10 ok;\
         0 11 kept 0 removed 1 short 0 long 1 dep 0 revived 0;0 12 null;\
         end handles 2 objects 0 collections 2;",
    ),
    (
        "new r0 0 fin;suppress r0;hnew h0 long r0;drop r0;collect 0;new r1 0;reregister r1;\
         drop r1;collect 0;final r2;final r3;",
        "0 1 obj 0.1;0 2 ok;0 3 ok;0 4 ok;0 5 kept 0 removed 1 short 0 long 1 dep 0 revived 0;\
         0 6 obj 0.2;0 7 ok;0 8 ok;0 9 kept 1 removed 0 short 0 long 0 dep 0 revived 1;\
         0 10 obj 0.2;0 11 none;end handles 1 objects 1 collections 2;",
    ),
    (
        "new r0 0 fin;suppress r0;hnew h0 long r0;drop r0;collect 2;new r1 0;reregister r1;\
         drop r1;collect 2;final r2;final r3;",
        "0 1 obj 0.1;0 2 ok;0 3 ok;0 4 ok;0 5 kept 0 removed 1 short 0 long 1 dep 0 revived 0;\
         0 6 obj 0.2;0 7 ok;0 8 ok;0 9 kept 1 removed 0 short 0 long 0 dep 0 revived 1;\
         0 10 obj 0.2;0 11 none;end handles 1 objects 1 collections 2;",
    ),
    (
        "new r0 0 fin;hnew h0 ref r0;hdown h0;drop r0;collect 0;hup h0;final r1;drop r1;\
         collect 1;hget r2 h0;",
        "0 1 obj 0.1;0 2 ok;0 3 value 0;0 4 ok;\
         0 5 kept 1 removed 0 short 0 long 0 dep 0 revived 1;0 6 value 1;0 7 obj 0.1;0 8 ok;\
         0 9 kept 1 removed 0 short 0 long 0 dep 0 revived 0;0 10 obj 0.1;\
         end handles 1 objects 1 collections 2;",
    ),
];

// Objects that grow older and move.
static OLDER: [(&str, &str); 6] = [
    (
        "new r0 0;collect 0;collect 1;gen r0;hnew h0 short r0;drop r0;collect 1;hget r1 h0;\
         drop r1;collect 2;hget r1 h0;",
        "0 1 obj 0.1;0 2 kept 1 removed 0 short 0 long 0 dep 0 revived 0;\
         0 3 kept 1 removed 0 short 0 long 0 dep 0 revived 0;0 4 gen 2;0 5 ok;0 6 ok;\
         0 7 kept 0 removed 0 short 0 long 0 dep 0 revived 0;0 8 obj 0.1;0 9 ok;\
         0 10 kept 0 removed 1 short 1 long 0 dep 0 revived 0;0 11 null;\
         end handles 1 objects 0 collections 4;",
    ),
    (
        "new r0 1;collect 0;collect 1;new r1 0;set r0 0 r1;drop r1;collect 0;get r2 r0 0;",
        "0 1 obj 0.1;0 2 kept 1 removed 0 short 0 long 0 dep 0 revived 0;\
         0 3 kept 1 removed 0 short 0 long 0 dep 0 revived 0;0 4 obj 0.2;0 5 ok;0 6 ok;\
         0 7 kept 1 removed 0 short 0 long 0 dep 0 revived 0;0 8 obj 0.2;\
         end handles 0 objects 2 collections 3;",
    ),
    (
        "new r0 0;hnew h0 strong r0;collect 0;collect 1;new r1 0;hset h0 r1;drop r1;collect 0;\
         hget r2 h0;",
        "0 1 obj 0.1;0 2 ok;0 3 kept 1 removed 0 short 0 long 0 dep 0 revived 0;\
         0 4 kept 1 removed 0 short 0 long 0 dep 0 revived 0;0 5 obj 0.2;0 6 ok;0 7 ok;\
         0 8 kept 1 removed 0 short 0 long 0 dep 0 revived 0;0 9 obj 0.2;\
         end handles 1 objects 2 collections 3;",
    ),
    (
        "new r0 1;new r1 0;set r0 0 r1;val r0 7;hnew h0 pinned r0;addr h0;collect 0;addr h0;\
         collect 2;addr h0;get r2 r0 0;read r0;",
        "0 1 obj 0.1;0 2 obj 0.2;0 3 ok;0 4 ok;0 5 ok;0 6 addr 256;\
         0 7 kept 2 removed 0 short 0 long 0 dep 0 revived 0;0 8 addr 256;\
         0 9 kept 2 removed 0 short 0 long 0 dep 0 revived 0;0 10 addr 256;0 11 obj 0.2;\
         0 12 value 7;end handles 1 objects 2 collections 2;",
    ),
    (
        "new r0 1;new r1 0;set r0 0 r1;val r0 7;hnew h0 pinned r0;addr h0;collect 2;addr h0;\
         collect 2;addr h0;get r2 r0 0;read r0;",
        "0 1 obj 0.1;0 2 obj 0.2;0 3 ok;0 4 ok;0 5 ok;0 6 addr 256;\
         0 7 kept 2 removed 0 short 0 long 0 dep 0 revived 0;0 8 addr 256;\
         0 9 kept 2 removed 0 short 0 long 0 dep 0 revived 0;0 10 addr 256;0 11 obj 0.2;\
         0 12 value 7;end handles 1 objects 2 collections 2;",
    ),
    (
        "new r0 61;set r0 60 r0;val r0 18446744073709551615;read r0;collect 0;get r1 r0 60;",
        "0 1 obj 0.1;0 2 ok;0 3 ok;0 4 value 18446744073709551615;\
         0 5 kept 1 removed 0 short 0 long 0 dep 0 revived 0;0 6 obj 0.1;\
         end handles 0 objects 1 collections 1;",
    ),
];

// From which anchor an object is reached, and over how many edges.
static ROOTED: [(&str, &str); 2] = [
    (
        "new r0 1;new r1 0;set r0 0 r1;sput 3 r0;gcroot r1;gcroot r0;new r2 0;gcroot r2;\
         gcroot r3;",
        "0 1 obj 0.1;0 2 obj 0.2;0 3 ok;0 4 ok;0 5 root 0.1 1;0 6 root 0.1 0;0 7 obj 0.3;\
         0 8 unrooted;0 9 nullref;end handles 0 objects 3 collections 0;",
    ),
    (
        "new r0 0;new r1 0;hnew h0 dep r0 r1;gcroot r1;hnew h1 strong r0;gcroot r1;",
        "0 1 obj 0.1;0 2 obj 0.2;0 3 ok;0 4 unrooted;0 5 ok;0 6 root 0.1 1;\
         end handles 2 objects 2 collections 0;",
    ),
];

// What is written where the words are not valid.
const USAGE: &str =
    "usage: hdt solo|run|load|roots|audit [--heap CELLS] [--blocks COUNT] [--rounds N] [--slots];";

// Limits of the heap and of blocks, which the words name: one caller alone meets them.
static LIMITED: [Row; 3] = [
    (
        &["solo", "--heap", "10"],
        "new r0 7;new r1 0;drop r0;collect 0;new r1 0;",
        0,
        "0 1 obj 0.1;0 2 heapfull 10 3;0 3 ok;0 4 kept 0 removed 1 short 0 long 0 dep 0 revived 0;\
         0 5 obj 0.2;end handles 0 objects 1 collections 1;",
    ),
    (
        &["solo", "--blocks", "1"],
        "hnew h0 dep r0 r1;",
        0,
        "0 1 tablefull 0;end handles 0 objects 0 collections 0;",
    ),
    (
        &["solo", "--blocks", "1"],
        "hnew h0 strong r0;trim strong;hfree h0;trim strong;trim strong;hnew h1 short r0;",
        0,
        "0 1 ok;0 2 value 0;0 3 ok;0 4 value 1;0 5 value 0;0 6 ok;\
         end handles 1 objects 0 collections 0;",
    ),
];

// Lists of roots, and the lines of loads.
static LISTED: [Row; 4] = [
    (
        &["roots"],
        "new r0 0;hnew h0 short r0;hnew h1 strong r0;hnew h2 var r0 pinned;",
        0,
        "0 1 obj 0.1;0 2 ok;0 3 ok;0 4 ok;end handles 3 objects 1 collections 0;\
         root 128 strong 0.1;root 192 var 0.1;roots 2;",
    ),
    (
        &["roots"],
        "",
        0,
        "end handles 0 objects 0 collections 0;roots 0;",
    ),
    (
        &["load", "--rounds", "16"],
        "",
        0,
        "load callers 4 commands 516 made 64 live 0 collections 4 sum 544;",
    ),
    (
        &["load", "--rounds", "3000"],
        "",
        0,
        "load callers 4 commands 96748 made 12000 live 0 collections 748 sum 18006000;",
    ),
];

// A text that is that of a run, and others, which are no run from some line on.
static JUDGED: [Row; 5] = [
    (
        &["audit"],
        "new r0 0;hnew h0 strong r0;=;0 1 obj 0.1;0 2 ok @64 +1;\
         end handles 1 objects 1 collections 0;",
        0,
        "run yes;",
    ),
    (
        &["audit"],
        "new r0 0;hnew h0 strong r0;=;0 1 obj 0.1;0 2 ok @65 +1;\
         end handles 1 objects 1 collections 0;",
        7,
        "run no 2;",
    ),
    (
        &["audit"],
        "new r0 0;hnew h0 strong r0;=;0 1 obj 0.2;0 2 ok @64 +1;\
         end handles 1 objects 1 collections 0;",
        7,
        "run no 1;",
    ),
    (
        &["audit"],
        "new r0 0;hnew h0 strong r0;=;0 1 obj 0.1;0 2 ok @64 +1;",
        7,
        "run no 3;",
    ),
    (
        &["audit"],
        "new r0 0;hnew h0 strong r0;0 1 obj 0.1;0 2 ok @64 +1;",
        3,
        "fault line 3;",
    ),
];

// Words that are not valid, lines that have no reading, and scripts that end in the middle of a
// command.
static REFUSED: [Row; 8] = [
    (&[], "new r0 0;", 2, USAGE),
    (&["walk"], "new r0 0;", 2, USAGE),
    (
        &["solo"],
        "new r0 0;hnew h0 strong r0;hgett r0 h0;",
        3,
        "fault line 3;",
    ),
    (&["solo"], "new r0 62;", 3, "fault line 1;"),
    (&["solo"], "collect 3;", 3, "fault line 1;"),
    (
        &["solo"],
        "val r0 18446744073709551616;",
        3,
        "fault line 1;",
    ),
    (
        &["solo"],
        "new r0 2;hnew h0 strong r0;drop r0;collect",
        3,
        "fault line 4;",
    ),
    (
        &["solo"],
        "new r0 2;hnew h0 strong r0;drop r0;collect 2;hget r1",
        3,
        "fault line 5;",
    ),
];

// Does scripts by `hdt solo`.
fn solo<R>(rt: &R, rows: &[(&'static str, &'static str)]) -> Result<(), Memory>
where
    R: Abort + AllocGlobal + Threads + Wait + Sync,
{
    for (script, text) in rows {
        fails(rt, (&SOLO, script, 0, text), &[], &[])?;
    }
    Ok(())
}

fn solo_all<R>(rt: &R, parts: &[&[(&'static str, &'static str)]]) -> Result<(), Memory>
where
    R: Abort + AllocGlobal + Threads + Wait + Sync,
{
    for part in parts {
        solo(rt, *part)?;
    }
    Ok(())
}

// Does rows in which no stream fails.
fn run<R>(rt: &R, rows: &[Row]) -> Result<(), Memory>
where
    R: Abort + AllocGlobal + Threads + Wait + Sync,
{
    for row in rows {
        fails(rt, *row, &[], &[])?;
    }
    Ok(())
}

fn run_all<R>(rt: &R, parts: &[&[Row]]) -> Result<(), Memory>
where
    R: Abort + AllocGlobal + Threads + Wait + Sync,
{
    for part in parts {
        run(rt, *part)?;
    }
    Ok(())
}

#[test]
fn scripts_have_their_text(rt: HostRuntime) -> Result<(), Memory> {
    let rows: [&[(&str, &str)]; 5] = [&WITHOUT_COLLECTIONS, &HELD, &FINALIZED, &OLDER, &ROOTED];
    solo_all(&rt, &rows)
}

#[test]
fn words_have_their_status_and_text(rt: HostRuntime) -> Result<(), Memory> {
    let rows: [&[Row]; 4] = [&LIMITED, &LISTED, &JUDGED, &REFUSED];
    run_all(&rt, &rows)
}
