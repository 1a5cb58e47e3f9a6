// What the program tells of itself.
ghost use Rattle.std.specs.Prelude.{◌≡◌, IfSome, length};

const HELP: &str = "\
nvmigrate: a software NVMe controller whose runs are proved to be legal histories

nvmigrate run serial BLOCKS SHELF
    reads a script from standard input, runs its guests on one thread over
    two hosts, each with BLOCKS blocks of 512 zero bytes in shelves of SHELF
    blocks, moves them from one to the other where the script asks for that,
    and writes the transcript to standard output. BLOCKS is from 1 to 131072,
    SHELF from 1 to 65536, SHELF divides BLOCKS, and there are at most 64
    shelves.
    example: nvmigrate run serial 32 16 < tests/cases/example_move/stdin
nvmigrate run serial BLOCKS SHELF FROM TO
    the same over two hosts in files of BLOCKS * 512 bytes, the source in
    FROM and the destination in TO, which is made of zero bytes where it
    doesn't exist. Both are synced before the program ends.
    example: nvmigrate run serial 32 16 a.img b.img < script
nvmigrate show
    reads a script from standard input, and writes what it asks for and the
    Identify data that its guests see. Nothing is run.
    example: nvmigrate show < tests/cases/example_show/stdin
nvmigrate check
    reads a script and a transcript behind it from standard input, and judges
    the transcript: `yes`, or `no LINE WHY` with its first line that is wrong.
    example: nvmigrate check < tests/cases/example_judged/stdin
nvmigrate --help
    writes this text.
    example: nvmigrate --help
nvmigrate --version
    writes the version.
    example: nvmigrate --version

exit status
    0  done
    1  the words are no form above
    2  the input is no script that is taken, or it is too long
    3  out of memory, before anything was written
    4  a host differs from the script
    5  a read of standard input failed
    6  a write of standard output failed
    7  the migration was given up where a medium failed, and the source went on
    8  the transcript that was judged isn't right
    9  a host's file wasn't opened or has another length, or wasn't synced
";

const VERSION: &str = "nvmigrate 0.1.0\n";

/// The text that the words ask for, where they are `--help` or `--version`.
pub(crate) fn told(words: &[String]) -> Option<&'static str>
    ensures { IfSome result (λ _. length words.now ≡ 1) }
{
    match words {
        [word] if word.as_str() == "--help" => Some(HELP),
        [word] if word.as_str() == "--version" => Some(VERSION),
        _ => None,
    }
}
