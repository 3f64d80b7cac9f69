//! What texts come to, row by row: a refusal with its place, or the flat program in words.

/// A text, and what it comes to.
pub(super) type Row = (&'static str, &'static str);

/// What stands before the pieces, what before and behind the number of each, what between them, and what behind them all.
pub(super) type Shape = (
    &'static str,
    &'static str,
    &'static str,
    &'static str,
    &'static str,
);

/// A shape, the number of its pieces, and what is told of the text.
pub(super) type Many = (Shape, u32, &'static str);

const REST: &str = "\nsig s = () -> (r: unknown)\nfun main : s = { }";

const MAIN: &str = "sig s = () -> (r: unknown)\nfun main : s = {\n";

/// Bodies of `main` that are refused: it begins on line 7, behind two data types, two signatures and a function.
pub(super) const REFUSED_BODIES: [Row; 67] = [
    // names
    ("x", "unknown 7:1"),
    ("x()", "unknown 7:1"),
    ("print x", "unknown 7:7"),
    ("Z { }", "unknown 7:1"),
    ("let a = 1; a.C.z", "unknown 7:16"),
    ("let a = 1; a.Z.f", "unknown 7:14"),
    ("let a = 1; a.C.z <- 1", "unknown 7:16"),
    ("match x { C -> { } D -> { } }", "unknown 7:7"),
    ("let a = 1; match a { Z -> { } }", "unknown 7:22"),
    ("let a = 1; match a { E -> { x } F -> { } }", "unknown 7:29"),
    ("let a = 1; retag a from Z to C", "unknown 7:25"),
    ("let a = 1; retag a from C to Z", "unknown 7:30"),
    ("retag x from C to C", "unknown 7:7"),
    ("give x to two", "unknown 7:6"),
    ("let a = 1; give a to y", "unknown 7:22"),
    ("take x from y", "unknown 7:6"),
    ("acquire x", "unknown 7:9"),
    ("release x", "unknown 7:9"),
    ("spawn x(1)", "unknown 7:7"),
    ("spawn main(x)", "shape 7:7"),
    ("newlock (x @ int)", "unknown 7:10"),
    ("newlock (two @ int)", "unknown 7:10"),
    ("newlock (result @ int)", "no tree"),
    ("let a = 1; newlock (a @ z)", "unknown 7:25"),
    ("let a = 1; newlock (a = z)", "unknown 7:25"),
    ("let a = 1; newlock (a @ =z)", "unknown 7:26"),
    ("let a = 1; newlock (a @ lock (z @ int))", "unknown 7:31"),
    (
        "let a = 1; newlock (a @ C { f = z; g = a })",
        "unknown 7:33",
    ),
    ("let a = 1; newlock (a @ Z { })", "unknown 7:25"),
    (
        "let a = 1; newlock (a @ D { h = a } adopts z)",
        "unknown 7:44",
    ),
    (
        "let a = 1; newlock (a @ D { h = a } adopts s)",
        "unknown 7:44",
    ),
    ("if 1 then { } else { } giving x @ int", "unknown 7:31"),
    ("let a = 1; let b = b", "unknown 7:20"),
    ("let a = 1; a + (b)", "unknown 7:17"),
    // a name after its block, and in the other branch
    ("if 1 then { let a = 2 } else { }; a", "unknown 7:35"),
    ("if 1 then { let a = 2 } else { a }", "unknown 7:32"),
    (
        "if 1 then { let a = 2; a } else { 1 } giving a @ int",
        "unknown 7:46",
    ),
    // declared twice
    ("let a = 1; let a = 2", "twice 7:16"),
    ("let a = 1; if 1 then { let a = 2 } else { }", "twice 7:28"),
    (
        "let a = 1; match a { E -> { let a = 2 } F -> { } }",
        "twice 7:33",
    ),
    // shapes
    ("C { f = 1 }", "shape 7:1"),
    ("C { f = 1; f = 2 }", "shape 7:1"),
    ("C { f = 1; g = 2; f = 3 }", "shape 7:1"),
    ("C { f = 1; z = 2 }", "shape 7:1"),
    ("C { f = 1; g = 2; z = 3 }", "shape 7:1"),
    ("F { z = 1 }", "shape 7:1"),
    ("let a = 1; newlock (a @ C { f = a })", "shape 7:25"),
    ("two(1)", "shape 7:1"),
    ("two(1, 2, 3)", "shape 7:1"),
    ("spawn two(1)", "shape 7:7"),
    ("spawn main(1)", "shape 7:7"),
    ("let a = 1; a.f", "shape 7:14"),
    ("let a = 1; a.f <- 2", "shape 7:14"),
    (
        "let a = 1; match a { E -> { } F -> { } C -> { } }",
        "shape 7:40",
    ),
    (
        "let a = 1; match a { E -> { } F -> { } E -> { } }",
        "shape 7:40",
    ),
    ("let a = 1; retag a from C to D", "shape 7:12"),
    // cases
    ("let a = 1; match a { C -> { } }", "lacks 7:12"),
    ("let a = 1; match a { C -> { x } }", "lacks 7:12"),
    ("match x { C -> { } C -> { } }", "lacks 7:1"),
    ("let a = 1; match a { C -> { } E -> { } }", "lacks 7:12"),
    (
        "let a = 1; match a { Z -> { } C -> { } C -> { } }",
        "unknown 7:22",
    ),
    // two at one place: a field that no constructor has
    ("let a = 1; a.z", "unknown 7:14"),
    // the first of two
    ("print x; print y", "unknown 7:7"),
    ("let a = 1; two(a.f)", "shape 7:12"),
    ("retag x from C to D", "shape 7:1"),
    ("let a = 1; newlock (a @ D { z = a })", "shape 7:25"),
    ("if 1 then { } else { } giving result @ z", "unknown 7:40"),
];

/// Whole sources that are refused.
pub(super) const REFUSED_SOURCES: [Row; 38] = [
    // no `main`
    ("", "no main 1:1"),
    ("sig s = () -> (r: unknown)", "no main 1:1"),
    (
        "sig s = (a: int) -> (r: unknown)\nfun main : s = { }",
        "no main 1:1",
    ),
    (
        "sig s = () -> (r: unknown)\nfun mains : s = { }",
        "no main 1:1",
    ),
    // other faults come first
    ("data d = D { f: z }", "unknown 1:17"),
    (
        "sig s = (a: int) -> (r: unknown)\nfun main : s = { x }",
        "unknown 2:18",
    ),
    // names
    (
        "sig s = () -> (r: unknown)\nfun main : z = { }",
        "unknown 2:12",
    ),
    ("data d = D { }\nfun main : d = { }", "unknown 2:12"),
    ("data d adopts z = D { }", "unknown 1:15"),
    (
        "data d adopts s = D { }\nsig s = () -> (r: unknown)",
        "unknown 1:15",
    ),
    ("data d = D { f: =z }", "unknown 1:18"),
    ("data d = D { f: lock (z @ int) }", "unknown 1:23"),
    ("data d = D { f: int } | E { g: =f }", "unknown 1:33"),
    ("sig s = (a: z) -> (r: unknown)", "unknown 1:13"),
    ("sig s = (a: =r) -> (r: unknown)", "unknown 1:14"),
    ("sig s = (a: int | r @ int) -> (r: unknown)", "unknown 1:19"),
    ("sig s = (a: int | z = a) -> (r: unknown)", "unknown 1:19"),
    ("sig s = () -> (r: z)", "unknown 1:19"),
    ("sig s = () -> (r: unknown | z @ int)", "unknown 1:29"),
    (
        "sig s = (a: int) -> (r: unknown)\nfun f : s = { r }",
        "unknown 2:15",
    ),
    // declared twice
    ("data d = D { }\ndata d = E { }", "twice 2:6"),
    ("data d = D { }\nsig d = () -> (r: unknown)", "twice 2:5"),
    ("sig d = () -> (r: unknown)\ndata d = D { }", "twice 2:6"),
    ("data d = D { } | D { }", "twice 1:18"),
    ("data d = D { }\ndata e = E { } | D { }", "twice 2:18"),
    ("data d = D { f: int; f: int }", "twice 1:22"),
    ("sig s = (a: int, a: int) -> (r: unknown)", "twice 1:18"),
    ("sig s = (a: int) -> (a: unknown)", "twice 1:22"),
    (
        "sig s = () -> (r: unknown)\nfun main : s = { }\nfun main : s = { }",
        "twice 3:5",
    ),
    (
        "sig s = (a: int) -> (r: unknown)\nfun f : s = { let a = 1 }",
        "twice 2:19",
    ),
    // the first declaration counts
    (
        "data d adopts e = D { }\nsig e = () -> (r: unknown)\ndata e = E { }",
        "unknown 1:15",
    ),
    (
        "data d = D { f: int } | D { }\nsig s = () -> (r: unknown)\nfun main : s = { D { } }",
        "twice 1:25",
    ),
    (
        "sig s = () -> (r: unknown)\nfun main : s = { D { } }\ndata d = D { f: int } | D { }",
        "shape 2:18",
    ),
    (
        "sig s = () -> (r: unknown)\nfun main : s = { let a = 1; a.f }\ndata d = D { f: int } | D { f: int }",
        "shape 2:31",
    ),
    (
        "sig s = () -> (r: unknown)\nfun main : s = { let a = 1; match a { D -> { } } }\ndata d = D { } | D { }",
        "lacks 2:29",
    ),
    (
        "sig s = () -> (r: unknown)\nsig t = (a: int) -> (r: unknown)\nfun main : s = { f(1) }\nfun f : s = { }\nfun f : t = { }",
        "shape 3:18",
    ),
    // a place before another, whatever its cause
    (
        "sig s = () -> (r: unknown)\nfun main : s = { main(1) }\nfun f : z = { }",
        "shape 2:18",
    ),
    (
        "sig s = () -> (r: unknown)\nfun f : z = { }\nfun main : s = { main(1) }",
        "unknown 2:9",
    ),
];

/// Bodies of `main` and what they come to.
pub(super) const FLAT_BODIES: [Row; 27] = [
    ("", "fun main s0 [0 unit 8:1; = 0 8:1] _"),
    ("1", "fun main s0 [0 int 1 7:1; = 0 8:1] _"),
    ("()", "fun main s0 [0 unit 7:1; = 0 8:1] _"),
    ("1;", "fun main s0 [0 int 1 7:1; 1 unit 8:1; = 1 8:1] _ _"),
    (
        "let a = 1; let b = a; b + 2 * a",
        "fun main s0 [0 int 1 7:9; 1 copy 0 7:20; 2 int 2 7:27; 3 Mul 2 0 7:29; 4 Add 1 3 7:25; = 4 8:1] a b _ _ _",
    ),
    (
        "8 - 4 - 2 == 1 + 1",
        "fun main s0 [0 int 8 7:1; 1 int 4 7:5; 2 Sub 0 1 7:3; 3 int 2 7:9; 4 Sub 2 3 7:7; 5 int 1 7:14; 6 int 1 7:18; 7 Add 5 6 7:16; 8 Eq 4 7 7:11; = 8 8:1] _ _ _ _ _ _ _ _ _",
    ),
    (
        "let a = if 1 then { 2; } else { 3 }",
        "fun main s0 [0 int 1 7:12; 4 if 0 [1 int 2 7:21; 2 unit 7:24; = 2 7:24] [3 int 3 7:33; = 3 7:35] 7:9; 5 unit 8:1; = 5 8:1] _ _ _ _ a _",
    ),
    (
        "let x = if 1 then { let x = 1; x } else { 2 }",
        "fun main s0 [0 int 1 7:12; 3 if 0 [1 int 1 7:29; = 1 7:34] [2 int 2 7:43; = 2 7:45] 7:9; 4 unit 8:1; = 4 8:1] _ x _ x _",
    ),
    (
        "two(C { g = 1; f = 2 }, 3)",
        "fun main s0 [0 fun 0 7:1; 1 int 1 7:13; 2 int 2 7:20; 3 new 0 [ 2 1] 7:5; 4 int 3 7:25; 5 call 0 [ 3 4] 7:1; = 5 8:1] _ _ _ _ _ _",
    ),
    ("F { }", "fun main s0 [0 new 3 [] 7:1; = 0 8:1] _"),
    (
        "let a = 1; a.g <- a.h",
        "fun main s0 [0 int 1 7:9; 1 read 0 1 0 7:21; 2 write 0 0 1 1 7:16; = 2 8:1] a _ _",
    ),
    (
        "let a = 1; a.C.g.h <- 2",
        "fun main s0 [0 int 1 7:9; 1 read 0 0 1 7:16; 2 int 2 7:23; 3 write 1 1 0 2 7:20; = 3 8:1] a _ _ _",
    ),
    (
        "let a = 1; match a { F -> { } E -> { a.E.f } }",
        "fun main s0 [0 int 1 7:9; 3 match 0 d1 c3 [1 unit 7:29; = 1 7:29] c2 [2 read 0 2 0 7:42; = 2 7:44] 7:12; = 3 8:1] a _ _ _",
    ),
    (
        "let a = 1; acquire a; release a; give a to a; take a from a; retag a from D to E; print a; spawn a(2)",
        "fun main s0 [0 int 1 7:9; 1 acquire 0 7:12; 2 release 0 7:23; 3 give 0 0 7:34; 4 take 0 0 7:47; 5 retag 0 1 2 7:62; 6 print 0 7:83; 7 int 2 7:100; 8 spawn 0 7 7:92; = 8 8:1] a _ _ _ _ _ _ _ _",
    ),
    (
        "acquire two",
        "fun main s0 [0 fun 0 7:9; 1 acquire 0 7:1; = 1 8:1] _ _",
    ),
    (
        "give two to two",
        "fun main s0 [0 fun 0 7:6; 1 fun 0 7:13; 2 give 0 1 7:1; = 2 8:1] _ _ _",
    ),
    (
        "let f = (two); f(1)",
        "fun main s0 [0 fun 0 7:10; 1 int 1 7:18; 2 call 0 [ 1] 7:16; = 2 8:1] f _ _",
    ),
    (
        "let a = 1; let b = ((a)); b",
        "fun main s0 [0 int 1 7:9; 1 copy 0 7:22; = 1 8:1] a b",
    ),
    // a local name hides a function's, from its own `let` on
    (
        "let two = two(1, 2); two(3)",
        "fun main s0 [0 fun 0 7:11; 1 int 1 7:15; 2 int 2 7:18; 3 call 0 [ 1 2] 7:11; 4 int 3 7:26; 5 call 3 [ 4] 7:22; = 5 8:1] _ _ _ two _ _",
    ),
    // a name of a block is free after it
    (
        "if 1 then { let a = 2 } else { }; let a = 3; a",
        "fun main s0 [0 int 1 7:4; 4 if 0 [1 int 2 7:21; 2 unit 7:23; = 2 7:23] [3 unit 7:32; = 3 7:32] 7:1; 5 int 3 7:43; = 5 8:1] _ a _ _ _ a",
    ),
    ("let r = 1; r", "fun main s0 [0 int 1 7:9; = 0 8:1] r"),
    (
        "let a = 1; if a then { a } else { 2 } giving result @ c * a = result",
        "fun main s0 [0 int 1 7:9; 2 if 0 [= 0 7:26] [1 int 2 7:35; = 1 7:37] 2@d0 0=2 7:12; = 2 8:1] a _ _",
    ),
    (
        "let a = 1; let b = 2; newlock (a @ C { g = b; f = a } adopts c * b @ lock (a @ =b))",
        "fun main s0 [0 int 1 7:9; 1 int 2 7:20; 2 newlock 0@c0[ 0 1]+d0 1@lock( 0=1) 7:23; = 2 8:1] a b _",
    ),
    (
        "let a = 1; (a.C.f).E.f",
        "fun main s0 [0 int 1 7:9; 1 read 0 0 0 7:17; 2 read 1 2 0 7:22; = 2 8:1] a _ _",
    ),
    // a local name hides a function's in a spawn
    (
        "let two = 1; spawn two(2)",
        "fun main s0 [0 int 1 7:11; 1 int 2 7:24; 2 spawn 0 1 7:14; = 2 8:1] two _ _",
    ),
    (
        "match two { C -> { } D -> { } }",
        "fun main s0 [0 fun 0 7:7; 3 match 0 d0 c0 [1 unit 7:20; = 1 7:20] c1 [2 unit 7:29; = 2 7:29] 7:1; = 3 8:1] _ _ _ _",
    ),
    (
        "let a = 1; match a { E -> { 1 } F -> { a } } giving a @ lock (result = a)",
        "fun main s0 [0 int 1 7:9; 2 match 0 d1 c2 [1 int 1 7:29; = 1 7:31] c3 [= 0 7:42] 0@lock( 2=0) 7:12; = 2 8:1] a _ _",
    ),
];

/// Each operator and each comparison between two numbers, and what it comes to in `main`.
pub(super) const OPERATORS: [Row; 11] = [
    (
        "8 + 3",
        "fun main s0 [0 int 8 7:1; 1 int 3 7:5; 2 Add 0 1 7:3; = 2 8:1] _ _ _",
    ),
    (
        "8 - 3",
        "fun main s0 [0 int 8 7:1; 1 int 3 7:5; 2 Sub 0 1 7:3; = 2 8:1] _ _ _",
    ),
    (
        "8 * 3",
        "fun main s0 [0 int 8 7:1; 1 int 3 7:5; 2 Mul 0 1 7:3; = 2 8:1] _ _ _",
    ),
    (
        "8 / 3",
        "fun main s0 [0 int 8 7:1; 1 int 3 7:5; 2 Div 0 1 7:3; = 2 8:1] _ _ _",
    ),
    (
        "8 % 3",
        "fun main s0 [0 int 8 7:1; 1 int 3 7:5; 2 Rem 0 1 7:3; = 2 8:1] _ _ _",
    ),
    (
        "8 == 3",
        "fun main s0 [0 int 8 7:1; 1 int 3 7:6; 2 Eq 0 1 7:3; = 2 8:1] _ _ _",
    ),
    (
        "8 != 3",
        "fun main s0 [0 int 8 7:1; 1 int 3 7:6; 2 Ne 0 1 7:3; = 2 8:1] _ _ _",
    ),
    (
        "8 < 3",
        "fun main s0 [0 int 8 7:1; 1 int 3 7:5; 2 Lt 0 1 7:3; = 2 8:1] _ _ _",
    ),
    (
        "8 <= 3",
        "fun main s0 [0 int 8 7:1; 1 int 3 7:6; 2 Le 0 1 7:3; = 2 8:1] _ _ _",
    ),
    (
        "8 > 3",
        "fun main s0 [0 int 8 7:1; 1 int 3 7:5; 2 Gt 0 1 7:3; = 2 8:1] _ _ _",
    ),
    (
        "8 >= 3",
        "fun main s0 [0 int 8 7:1; 1 int 3 7:6; 2 Ge 0 1 7:3; = 2 8:1] _ _ _",
    ),
];

/// Whole sources and what all of their declarations, and the last function, come to.
pub(super) const FLAT_SOURCES: [Row; 4] = [
    (
        "data mutable c adopts c = C { f: c; g: =f; h: C { g = h; f = g; h = f } }
sig t = (consumes a: =b, b: t | consumes a @ lock (b @ int)) -> (r: c | r = a)
sig s = () -> (r: =r)
fun main : s = { }",
        "data c true Some(0) [ 0] 1:14; con C d0 f:0@d0 g:1=0 h:2@c0[ 1 2 0]; sig t 2 -0=1 1@s0 -0@lock( 1@int) -> 2@d0 2=0; sig s 0 -> 0=0; fun main s1 [0 unit 4:18; = 0 4:18] _",
    ),
    // used before they are declared
    (
        "fun f : t = { E { x = D { } } }
fun main : s = { f() }
sig s = () -> (r: unknown)
sig t = () -> (r: d)
data e = E { x: D { } adopts f }
data d = D { }
data mutable f = G { }",
        "data e false None [ 0] 5:6; data d false None [ 1] 6:6; data f true None [ 2] 7:14; con E d0 x:0@c1[]+d2; con D d1; con G d2; sig s 0 -> 0@unknown; sig t 0 -> 0@d1; clause c1+d2 5:30; fun main s0 [0 fun 0 2:18; 1 call 0 [] 2:18; = 1 2:22] _ _",
    ),
    // parameters are the first core names; places of `adopts` in written order
    (
        "data mutable d = D { x: dynamic; y: locked }
sig s = () -> (r: unknown)
fun main : s = { }
sig t = (a: D { y = b; x = a } adopts d, b: int) -> (r: D { x = r; y = r } adopts d)
fun g : t = { let c = b; newlock (c @ D { x = a; y = b } adopts d) }",
        "data d true None [ 0] 1:14; con D d0 x:0@dynamic y:1@locked; sig s 0 -> 0@unknown; sig t 2 0@c0[ 0 1]+d0 1@int -> 2@c0[ 2 2]+d0; clause c0+d0 4:39; clause c0+d0 4:83; clause c0+d0 5:65; fun g s1 [2 copy 1 5:23; 3 newlock 2@c0[ 0 1]+d0 5:26; = 3 5:68] a b c _",
    ),
    // names of different sorts may be alike
    (
        "data main = M { main: int }
sig s = (main: int) -> (r: unknown)
sig u = () -> (u: =u)
fun s : s = { main }
fun main : u = { s(1) }",
        "data main false None [ 0] 1:6; con M d0 main:0@int; sig s 1 0@int -> 1@unknown; sig u 0 -> 0=0; fun main s1 [0 fun 0 5:18; 1 int 1 5:20; 2 call 0 [ 1] 5:18; = 2 5:23] _ _ _",
    ),
];

/// The most pieces that there may be, and the refusal of one more.
pub(super) const LIMITS: [Many; 11] = [
    // fields of a constructor
    (
        (
            "data d = D {\n",
            "f",
            ": int",
            ";\n",
            "}\nsig s = () -> (r: unknown)\nfun main : s = { }",
        ),
        32,
        "many 34:1",
    ),
    // parameters
    (
        (
            "sig t = (\n",
            "consumes a",
            ": int",
            ",\n",
            ") -> (r: unknown)\nsig s = () -> (r: unknown)\nfun main : s = { }",
        ),
        32,
        "many 34:10",
    ),
    // constructors
    (
        ("data d =\n", "C", " { }", " |\n", REST),
        1000,
        "many 1002:1",
    ),
    // data types and signatures together
    (
        (
            "data e = E { }\nsig s = () -> (r: unknown)\nfun main : s = { }\n",
            "sig a",
            " = () -> (r: unknown)",
            "\n",
            "",
        ),
        998,
        "many 1002:5",
    ),
    // functions
    (
        (
            "sig s = () -> (r: unknown)\nfun main : s = { }\n",
            "fun f",
            " : s = { }",
            "\n",
            "",
        ),
        999,
        "many 1002:5",
    ),
    // core names: at a number, an operator, an `if`, the `()` of a block, a callee, a local name that is copied
    ((MAIN, "", "", ";\n", "}"), 256, "many 259:1"),
    ((MAIN, "", "", ";\n", ";\n1 + 1}"), 253, "many 257:3"),
    (
        (MAIN, "", "", ";\n", ";\nif 1 then { 1 } else { 1 }}"),
        252,
        "many 256:1",
    ),
    ((MAIN, "", "", ";\n", ";\n}"), 255, "many 259:1"),
    (
        (MAIN, "", "", ";\n", ";\nlet f = 1; f(1, 2)}"),
        252,
        "many 256:12",
    ),
    (
        (MAIN, "", "", ";\n", ";\nlet a = 1; let b = a; b}"),
        254,
        "many 258:20",
    ),
];

/// Two faults at one place: the first in the order of the causes is answered.
pub(super) const AT_ONE_PLACE: [Many; 7] = [
    // at the command whose number is 256: an unknown name, the shape of a call, a match that lacks a case
    ((MAIN, "", "", ";\n", ";\nx}"), 256, "unknown 259:1"),
    ((MAIN, "", "", ";\n", ";\nmain(1)}"), 254, "shape 257:1"),
    (
        (
            "data d = D { } | E { } sig s = () -> (r: unknown)\nfun main : s = {\n",
            "",
            "",
            ";\n",
            ";\nlet a = 1; match a { D -> { 1 } }}",
        ),
        254,
        "lacks 257:12",
    ),
    // the 33rd field, the 33rd parameter and the 1,001st function are declared before
    (
        ("data d = D {\n", "f", ": int", ";\n", ";\nf0: int }"),
        32,
        "twice 34:1",
    ),
    (
        (
            "sig t = (\n",
            "a",
            ": int",
            ",\n",
            ",\na3: int) -> (r: unknown)",
        ),
        32,
        "twice 34:1",
    ),
    (
        (
            "sig s = () -> (r: unknown)\n",
            "fun f",
            " : s = { }",
            "\n",
            "\nfun f7 : s = { }",
        ),
        1000,
        "twice 1002:5",
    ),
    // the one command whose number is 256, though a command past it stands before it
    (
        (MAIN, "", "", ";\n", ";\nif 1 then { 1;\n2 } else { 3 }}"),
        254,
        "many 258:1",
    ),
];
