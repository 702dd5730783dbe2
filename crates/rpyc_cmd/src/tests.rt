use crate::decide::run_cmd;
use crate::status::Status;
use std::alloc::{AllocError, Global};
use std::process::Abort;
use std::test::Fail;
use wire_io::{MemFiles, MemSink, MemWire};

const A: &[u8] = b"print(conn.namespace[\"x\"])\n";

const B: &[u8] = b"x = 5\n";

const REPORT: &str = "B 0\nA 2\n5\nend done\nunits 12\ntables A 0 B 2\n";

/// The devices of a run in memory.
#[derive(Drop)]
struct Devices {
    files: MemFiles,
    out: MemSink,
    ab: MemWire,
    ba: MemWire,
}

/// Files `a.py` and `b.py`, a sink and two wires that never fail.
fn make_devices(alloc: Global, a: &[u8], b: &[u8]) -> Result<Devices, AllocError> {
    let mut held = Vec::new(alloc);
    held.push((String::from_str(alloc, "a.py")?, a.to_vec(alloc)?))?;
    held.push((String::from_str(alloc, "b.py")?, b.to_vec(alloc)?))?;
    Ok(Devices {
        files: MemFiles::new(held, Vec::new(alloc)),
        out: MemSink::new(alloc, 4096, Vec::new(alloc)),
        ab: MemWire::new(alloc, 4096, Vec::new(alloc)),
        ba: MemWire::new(alloc, 4096, Vec::new(alloc)),
    })
}

fn run(alloc: Global, words: &[&str], devices: &mut Devices) -> Result<Status, AllocError> {
    let mut owned = Vec::new(alloc);
    for word in words {
        owned.push(String::from_str(alloc, word)?)?;
    }
    Ok(run_cmd(
        alloc,
        &owned,
        &mut devices.files,
        &mut devices.out,
        &mut devices.ab,
        &mut devices.ba,
    ))
}

/// Runs `pair a.py b.py` on two texts, and compares the status and all that was written.
fn check(
    rt: &impl Abort,
    alloc: Global,
    a: &[u8],
    b: &[u8],
    status: Status,
    text: &str,
) -> Result<(), AllocError> {
    let mut devices = make_devices(alloc, a, b)?;
    let ended = run(alloc, &["pair", "a.py", "b.py"], &mut devices)?;
    assert_eq!(rt; ended, status);
    assert_eq!(rt; devices.out.taken(), text.as_bytes());
    Ok(())
}

#[test]
fn the_first_pair(rt: HostRuntime) -> Result<(), Fail> {
    let alloc = rt.alloc();
    let mut devices = make_devices(alloc, A, B)?;
    let ended = run(alloc, &["pair", "a.py", "b.py"], &mut devices)?;
    assert_eq!(rt; ended, Status::Done);
    assert_eq!(rt; devices.out.taken(), REPORT.as_bytes());
    Ok(())
}

/// Two texts, the status of their run, and what it writes.
type Run = (&'static [u8], &'static [u8], Status, &'static str);

const TWO: &[u8] = b"print(conn.namespace[\"y\"])\nprint(conn.namespace[\"x\"])";

const GREATEST: &[u8] = b"y = 170141183460469231731687303715884105727\nx = 160\n";

const TOO_GREAT: &[u8] = b"x = 5\nx = 170141183460469231731687303715884105728\n";

#[test]
fn texts_and_their_reports(rt: HostRuntime) -> Result<(), Fail> {
    let alloc = rt.alloc();
    let runs: [Run; 7] = [
        (
            b"",
            b"",
            Status::Done,
            "B 0\nA 0\nend done\nunits 2\ntables A 0 B 2\n",
        ),
        (
            TWO,
            b"x = 0\ny = 159\nx = 10\n",
            Status::Done,
            "B 0\nA 7\n159\n10\nend done\nunits 24\ntables A 0 B 2\n",
        ),
        (
            TWO,
            GREATEST,
            Status::Done,
            "B 0\nA 44\n170141183460469231731687303715884105727\n160\nend done\nunits 22\ntables A 0 B 2\n",
        ),
        (
            b"print(1)\n",
            B,
            Status::Script,
            "rpyc: a.py line 1 rule NotYet\n",
        ),
        (
            b"print(1)\n",
            b"x = 05\n",
            Status::Script,
            "rpyc: a.py line 1 rule NotYet\n",
        ),
        (
            b"print(conn.namespace[\"z\"])\n",
            TOO_GREAT,
            Status::Script,
            "rpyc: b.py line 2 rule L4\n",
        ),
        (
            TWO,
            b"y = 1\n",
            Status::Script,
            "rpyc: a.py line 2 rule NotYet\n",
        ),
    ];
    for (a, b, status, text) in runs {
        check(&rt, alloc, a, b, status, text)?;
    }
    Ok(())
}

#[test]
fn refused_scripts(rt: HostRuntime) -> Result<(), Fail> {
    let alloc = rt.alloc();
    let refusals: [(&[u8], &[u8], &str); 8] = [
        (
            b"a = [1]\nb = [1]\nprint(a is b)\n",
            B,
            "rpyc: a.py line 3 rule S5\n",
        ),
        (
            b"raise StopIteration(1)\n",
            B,
            "rpyc: a.py line 1 rule S7\n",
        ),
        (b"\tprint(1)\n", B, "rpyc: a.py line 1 rule L1\n"),
        (b"with x:\n", B, "rpyc: a.py line 1 rule P2\n"),
        (b"x = (\n", B, "rpyc: a.py line 1 rule P1\n"),
        (b"print(1)\n", B, "rpyc: a.py line 1 rule NotYet\n"),
        (b"print(1)\n", b"x = (\n", "rpyc: a.py line 1 rule NotYet\n"),
        (A, b"y = 1\nx = (\n", "rpyc: b.py line 2 rule P1\n"),
    ];
    for (a, b, text) in refusals {
        check(&rt, alloc, a, b, Status::Script, text)?;
    }
    Ok(())
}

/// So many times the same bytes.
fn repeated(alloc: Global, bytes: &[u8], times: usize) -> Result<Vec<u8>, AllocError> {
    let mut all = Vec::new(alloc);
    for _ in 0..times {
        all.extend_from_slice(bytes)?;
    }
    Ok(all)
}

#[test]
fn long_texts(rt: HostRuntime) -> Result<(), Fail> {
    let alloc = rt.alloc();
    let many = repeated(alloc, A, 101)?;
    let mut devices = make_devices(alloc, &many, B)?;
    let ended = run(alloc, &["pair", "a.py", "b.py"], &mut devices)?;
    assert_eq!(rt; ended, Status::Done);
    let longest = repeated(alloc, b"x = 123456789012345678901234567\n", 32_768)?;
    check(
        &rt,
        alloc,
        b"",
        &longest,
        Status::Done,
        "B 0\nA 0\nend done\nunits 65538\ntables A 0 B 2\n",
    )?;
    let longer = repeated(alloc, b"x = 123456789012345678901234567\n", 40_000)?;
    check(
        &rt,
        alloc,
        b"",
        &longer,
        Status::Script,
        "rpyc: b.py line 32769 rule L5\n",
    )?;
    Ok(())
}

#[test]
fn words_and_files(rt: HostRuntime) -> Result<(), Fail> {
    let alloc = rt.alloc();
    let mut short = make_devices(alloc, A, B)?;
    let ended = run(alloc, &["pair", "a.py"], &mut short)?;
    assert_eq!(rt; ended, Status::Words);
    assert_eq!(rt; short.out.taken(), b"rpyc: words at 2\n".as_slice());
    let mut absent = make_devices(alloc, A, B)?;
    let ended = run(alloc, &["pair", "gone.py", "b.py"], &mut absent)?;
    assert_eq!(rt; ended, Status::File);
    assert_eq!(rt; absent.out.taken(), b"rpyc: gone.py not there\n".as_slice());
    let mut broken = make_devices(alloc, A, B)?;
    let mut held = Vec::new(alloc);
    held.push((String::from_str(alloc, "a.py")?, A.to_vec(alloc)?))?;
    broken.files = MemFiles::new(held, [2].to_vec(alloc)?);
    let ended = run(alloc, &["pair", "a.py", "b.py"], &mut broken)?;
    assert_eq!(rt; ended, Status::File);
    assert_eq!(rt; broken.out.taken(), b"rpyc: b.py read fault\n".as_slice());
    Ok(())
}

/// A frame that asks for the root.
const ROOT: &[u8] = b"\x00\x00\x00\x08\x00\x12\x51\x50\x11\x53\x11\x51\x02\x0a";

/// The same, and a frame whose data are compressed.
const COMPRESSED: &[u8] =
    b"\x00\x00\x00\x08\x00\x12\x51\x50\x11\x53\x11\x51\x02\x0a\x00\x00\x00\x01\x01";

/// The words, the status of their run, and what it writes.
type Call = (&'static [&'static str], Status, &'static str);

#[test]
fn files_of_frames(rt: HostRuntime) -> Result<(), Fail> {
    let alloc = rt.alloc();
    let calls: [Call; 6] = [
        (
            &["dump", "a.py"],
            Status::Done,
            "request 0 GETROOT (1, ())\n",
        ),
        (
            &["dump", "b.py"],
            Status::Peer,
            "request 0 GETROOT (1, ())\nfault F2 18\n",
        ),
        (&["dump", "gone"], Status::File, "rpyc: gone not there\n"),
        (&["dump"], Status::Words, "rpyc: words at 1\n"),
        (
            &["dump", "a.py", "b.py"],
            Status::Words,
            "rpyc: words at 2\n",
        ),
        (&["show", "a.py"], Status::Words, "rpyc: words at 0\n"),
    ];
    for (words, status, text) in calls {
        let mut devices = make_devices(alloc, ROOT, COMPRESSED)?;
        let ended = run(alloc, words, &mut devices)?;
        assert_eq!(rt; ended, status);
        assert_eq!(rt; devices.out.taken(), text.as_bytes());
        assert!(rt; devices.ab.begun().is_none() && devices.ba.begun().is_none());
    }
    Ok(())
}

/// A script, the words behind the file's name, the status of its run alone, and what it writes.
type Alone = (&'static [u8], &'static [&'static str], Status, &'static str);

const LEAST: &[u8] = b"x = -170141183460469231731687303715884105727 - 1\nprint(x)\nprint(x - 1)\n";

const LOOP: &[u8] =
    b"n = 0\nwhile True:\n    n += 1\n    if n == 2:\n        continue\n    if n > 3:\n        break\n    print(n)\n";

const TEXTS: &[u8] = b"print(\"it's\", 'a\"b', (\"it's\", \"q\"))\n";

const NUMBERS: &[u8] = b"print(-7 // 2, -7 % 3, 7 // -2, 2 ** 10, (1,), ())\n";

const CLOSURES: &[u8] =
    b"def make(n):\n    def add(k):\n        nonlocal n\n        n += k\n        return n\n    return add\nf = make(10)\nprint(f(1), f(2))\ntry:\n    print(1 // 0)\nexcept ZeroDivisionError as e:\n    print(\"caught\", str(e))\nfinally:\n    print(\"last\")\n";

const RETURNS: &[u8] =
    b"def g():\n    try:\n        return 1\n    finally:\n        print('x')\nprint(g())\n";

const LISTS: &[u8] =
    b"a = [3, 1]\na[0] = 5\na += (7,)\nfor x in a:\n    print(x)\nprint(a, 7 in a, a == [5, 1, 7], len(a))\n";

/// A method of a class calls that of its base, which reads the instance's own attribute.
const CLASSES: &[u8] = b"\
class A:
    def __init__(self, x):
        self.x = x
    def get(self):
        return self.x
class B(A):
    y = 2
    def get(self):
        return self.y + A.get(self)
b = B(5)
print(b.get(), b.x)
";

/// Special methods, `sorted` and `join`.
const SPECIALS: &[u8] = b"\
class P:
    def __init__(self, n):
        self.n = n
    def __eq__(self, other):
        return self.n == other.n
    def __repr__(self):
        return \"P\" + str(self.n)
    def __len__(self):
        return self.n
print([P(1), (P(2), 3)], P(1) == P(1), len(P(4)), sorted([3, 1, 2]), \",\".join([\"a\", \"b\"]))
";

/// A list that grows while it is gone over.
const GROWING: &[u8] =
    b"a = [1]\nfor x in a:\n    if x < 3:\n        a += [x + 1]\nprint(a, list(range(0, 5, 2)), sum(range(4)))\n";

const TUPLES: &[u8] = b"\
class P:
    def __init__(self, n):
        self.n = n
    def __eq__(self, other):
        return self.n == other.n
p = P(1)
q = P(1)
t = (p, 2)
print(t == (q, 2), t != (q, 3), t == (p, 2))
print(t < (q, 3))
";

const MEMBERS: &[u8] = b"\
class P:
    def __init__(self, n):
        self.n = n
    def __eq__(self, other):
        return self.n == other.n
print([1] in (1, [1]), [2] not in (1, [1], ()))
t = (P(1), P(2))
print(P(2) in t, P(3) in t, t[0] in t)
";

const TUPLE_TEXTS: &[u8] = b"\
class P:
    def __init__(self, n):
        self.n = n
    def __repr__(self):
        return \"P\" + str(self.n)
print((P(1), (P(2), 3)))
t = (P(4),)
print(str(t), repr(t), [t, (t[0], \"x\")], t)
";

const OPERATORS: &[u8] = b"\
class V:
    def __init__(self, n):
        self.n = n
    def __add__(self, other):
        return V(self.n + other)
    def __sub__(self, other):
        if other is None:
            return NotImplemented
        return self.n - other.n
x = V(5)
y = x + 1
print(y.n, y - x)
y += 2
print(y.n)
try:
    x - None
except TypeError as e:
    print(str(e))
print(1 + x)
";

const ORDERS: &[u8] = b"\
class P:
    def __lt__(self, other):
        return True
p = P()
print(sorted((3, True, 2)), sorted((\"b\", \"a\")))
t = (2, p)
for v in t:
    print(v == p)
print(sorted(t))
";

const RAISING_EQ: &[u8] = b"\
class E:
    def __init__(self, n):
        self.n = n
    def __eq__(self, other):
        if self.n > 1:
            raise ValueError(\"no\", self.n)
        return self.n == other.n
a = (E(1), E(2), 0)
b = (E(1), E(2), 1)
print((a[0], 5) == (b[0], 6), a == a)
try:
    print(a == b)
except ValueError as e:
    print(e.args, repr(e))
try:
    print(a[1] in b)
except ValueError as e:
    print(str(e))
print(a != b)
";

#[test]
fn scripts_alone(rt: HostRuntime) -> Result<(), Fail> {
    let alloc = rt.alloc();
    let runs: [Alone; 29] = [
        (
            b"print(1)\n",
            &["--fuel", "2"],
            Status::OutOfFuel,
            "A 0\nend fuel\nunits 2\n",
        ),
        (
            b"print(1)\n",
            &["--fuel", "3"],
            Status::Done,
            "A 2\n1\nend done\nunits 3\n",
        ),
        (
            LEAST,
            &[],
            Status::Beyond,
            "A 41\n-170141183460469231731687303715884105728\nend beyond Int\nunits 13\n",
        ),
        (
            b"print(1 // 0)\n",
            &[],
            Status::Raised,
            "A 0\nend raised A ZeroDivisionError('division by zero')\nunits 5\n",
        ),
        (
            TEXTS,
            &[],
            Status::Done,
            "A 23\nit's a\"b (\"it's\", 'q')\nend done\nunits 7\n",
        ),
        (
            NUMBERS,
            &[],
            Status::Done,
            "A 21\n-4 2 -4 1024 (1,) ()\nend done\nunits 20\n",
        ),
        (LOOP, &[], Status::Done, "A 4\n1\n3\nend done\nunits 51\n"),
        (
            b"print(1 < 2 < 3, 2 < 1 < print(9))\n",
            &[],
            Status::Done,
            "A 11\nTrue False\nend done\nunits 9\n",
        ),
        (
            b"print(y)\n",
            &["--fuel", "1000000000"],
            Status::Raised,
            "A 0\nend raised A NameError('y')\nunits 3\n",
        ),
        (
            CLOSURES,
            &[],
            Status::Done,
            "A 35\n11 13\ncaught division by zero\nlast\nend done\nunits 43\n",
        ),
        (
            RETURNS,
            &[],
            Status::Done,
            "A 4\nx\n1\nend done\nunits 12\n",
        ),
        (
            b"def f():\n    return f()\nf()\n",
            &["--fuel", "100"],
            Status::OutOfFuel,
            "A 0\nend fuel\nunits 100\n",
        ),
        (
            b"def f():\n    pass\nprint(f)\n",
            &[],
            Status::Beyond,
            "A 0\nend beyond Address\nunits 5\n",
        ),
        (
            b"print((lambda x: x + 1)(2))\n",
            &[],
            Status::Done,
            "A 2\n3\nend done\nunits 9\n",
        ),
        (
            b"try:\n    raise ValueError('a', 1)\nexcept KeyError:\n    pass\n",
            &[],
            Status::Raised,
            "A 0\nend raised A ValueError('a', 1)\nunits 4\n",
        ),
        (
            b"print(1)\n\nx = sorted\n",
            &[],
            Status::Script,
            "rpyc: a.py line 3 rule S2\n",
        ),
        (
            LISTS,
            &[],
            Status::Done,
            "A 28\n5\n1\n7\n[5, 1, 7] True True 3\nend done\nunits 52\n",
        ),
        (
            b"a = [0]\na[0] = a\nprint(a)\n",
            &[],
            Status::Beyond,
            "A 0\nend beyond CyclicRepr\nunits 13\n",
        ),
        (
            GROWING,
            &[],
            Status::Done,
            "A 22\n[1, 2, 3] [0, 2, 4] 6\nend done\nunits 64\n",
        ),
        (
            b"a = []\na.append(a)\nprint(a)\n",
            &[],
            Status::Beyond,
            "A 0\nend beyond CyclicRepr\nunits 14\n",
        ),
        (CLASSES, &[], Status::Done, "A 4\n7 5\nend done\nunits 43\n"),
        (
            SPECIALS,
            &[],
            Status::Done,
            "A 35\n[P1, (P2, 3)] True 4 [1, 2, 3] a,b\nend done\nunits 115\n",
        ),
        (
            b"d = {1: \"one\"}\nd[True] = \"yes\"\nprint(d, 1 in d)\n",
            &[],
            Status::Done,
            "A 16\n{1: 'yes'} True\nend done\nunits 17\n",
        ),
        (
            TUPLES,
            &[],
            Status::Beyond,
            "A 15\nTrue True True\nend beyond Order\nunits 71\n",
        ),
        (
            MEMBERS,
            &[],
            Status::Done,
            "A 26\nTrue True\nTrue False True\nend done\nunits 120\n",
        ),
        (
            TUPLE_TEXTS,
            &[],
            Status::Done,
            "A 51\n(P1, (P2, 3))\n(P4,) (P4,) [(P4,), (P4, 'x')] (P4,)\nend done\nunits 115\n",
        ),
        (
            OPERATORS,
            &[],
            Status::Raised,
            "A 26\n6 1\n8\nunsupported operand\nend raised A TypeError('unsupported operand')\nunits 101\n",
        ),
        (
            ORDERS,
            &[],
            Status::Beyond,
            "A 35\n[True, 2, 3] ['a', 'b']\nFalse\nTrue\nend beyond Order\nunits 46\n",
        ),
        (
            RAISING_EQ,
            &[],
            Status::Raised,
            "A 51\nFalse True\n('no', 2) ValueError('no', 2)\n('no', 2)\nend raised A ValueError('no', 2)\nunits 177\n",
        ),
    ];
    for (script, options, status, text) in runs {
        check_alone(&rt, alloc, script, options, status, text)?;
    }
    Ok(())
}

/// Runs `run a.py` with these options on a text, and compares the status and all that was written. No wire is begun.
fn check_alone(
    rt: &impl Abort,
    alloc: Global,
    script: &[u8],
    options: &[&str],
    status: Status,
    text: &str,
) -> Result<(), AllocError> {
    let mut devices = make_devices(alloc, script, b"")?;
    let mut words = Vec::new(alloc);
    words.push("run")?;
    words.push("a.py")?;
    words.extend_from_slice(options)?;
    let ended = run(alloc, &words, &mut devices)?;
    assert_eq!(rt; ended, status);
    assert_eq!(rt; devices.out.taken(), text.as_bytes());
    assert!(rt; devices.ab.begun().is_none() && devices.ba.begun().is_none());
    Ok(())
}

#[test]
fn words_of_a_run(rt: HostRuntime) -> Result<(), Fail> {
    let alloc = rt.alloc();
    let calls: [Call; 8] = [
        (&["run"], Status::Words, "rpyc: words at 1\n"),
        (&["run", "-a"], Status::Words, "rpyc: words at 1\n"),
        (
            &["run", "a.py", "b.py"],
            Status::Words,
            "rpyc: words at 2\n",
        ),
        (
            &["run", "a.py", "--fuel"],
            Status::Words,
            "rpyc: words at 3\n",
        ),
        (
            &["run", "a.py", "--fuel", "01"],
            Status::Words,
            "rpyc: words at 3\n",
        ),
        (
            &["run", "a.py", "--fuel", "1000000001"],
            Status::Words,
            "rpyc: words at 3\n",
        ),
        (
            &["run", "a.py", "--fuel", "0", "b.py"],
            Status::Words,
            "rpyc: words at 4\n",
        ),
        (
            &["run", "gone.py", "--fuel", "0"],
            Status::File,
            "rpyc: gone.py not there\n",
        ),
    ];
    for (words, status, text) in calls {
        let mut devices = make_devices(alloc, b"print(1)\n", b"")?;
        let ended = run(alloc, words, &mut devices)?;
        assert_eq!(rt; ended, status);
        assert_eq!(rt; devices.out.taken(), text.as_bytes());
    }
    Ok(())
}

#[test]
fn devices_that_fail(rt: HostRuntime) -> Result<(), Fail> {
    let alloc = rt.alloc();
    let mut cut = make_devices(alloc, A, B)?;
    cut.ab = MemWire::new(alloc, 4096, [3].to_vec(alloc)?);
    let ended = run(alloc, &["pair", "a.py", "b.py"], &mut cut)?;
    assert_eq!(rt; ended, Status::Device);
    assert_eq!(rt;
        cut.out.taken(),
        b"B 0\nA 0\nend wire\nunits -\ntables -\n".as_slice()
    );
    let mut narrow = make_devices(alloc, A, B)?;
    narrow.ab = MemWire::new(alloc, 1, Vec::new(alloc));
    narrow.ba = MemWire::new(alloc, 3, Vec::new(alloc));
    let ended = run(alloc, &["pair", "a.py", "b.py"], &mut narrow)?;
    assert_eq!(rt; ended, Status::Done);
    assert_eq!(rt; narrow.out.taken(), REPORT.as_bytes());
    let mut full = make_devices(alloc, A, B)?;
    full.out = MemSink::new(alloc, 10, [2].to_vec(alloc)?);
    let ended = run(alloc, &["pair", "a.py", "b.py"], &mut full)?;
    assert_eq!(rt; ended, Status::Output);
    assert_eq!(rt; full.out.taken(), b"B 0\nA 2\n5\n".as_slice());
    Ok(())
}
