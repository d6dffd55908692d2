//! What `--help` and `--version` print.

/// How the program is used, what its arguments ask for, and its statuses.
pub const HELP: &str = "\
clru_mrc computes how many requests an LRU cache of each capacity would miss.

    awk '$6 == \"\\\"GET\" && ($9 == 200 || $9 == 304) { print $7 }' access.log > keys
    clru_mrc < keys
    clru_mrc --least --svg < keys > curve.svg
    awk '$6 == \"\\\"GET\" && $9 == 200 && $10 != \"-\" { print $10, $7 }' access.log > sized
    clru_mrc --sizes --at 500MB,1.5GB < sized

Give it requests on standard input, one a line: the key is the line's bytes.
It writes a table as CSV: capacity, misses, misses as a part of all requests,
misses saved for each key since the row before (with --sizes missed bytes for
each byte), and 1 if misses fall steeply just before this row, whichever rows
are shown. Between the usual rows you may interpolate, except with --max-age.

Input
    --sizes      each line begins with the object's size and a blank, and is the
                 key as a whole; capacities are in bytes, from the greatest
                 size on, and missed bytes stand beside misses; 0 counts as 1
    --one-size   with --sizes: the key is what follows the size, and each of its
                 requests takes the greatest size it came with
    --times      each line begins with a time and a blank, before its size (with
                 --sizes) and key: a number, with decimals if need be; not with
                 --one-size, --least, --floor, --after or --summary
    --sampled N --requests M
                 the input is already a sample of one key in N, of M requests
    --progress   shows on standard error once a second how far the input is
                 read, as on a terminal

What is counted
    --least      also the least possible misses: the fewest of any policy that
                 takes in each requested key and no other, even if it knows all
                 requests; only in keys
    --floor      also a floor of the misses: no policy that starts empty and
                 takes in requested keys only has fewer, even one that bypasses
                 some; with --sizes one of the missed bytes too; a sample scales
                 both as it does misses
    --after N    the first N requests fill the cache and are not counted: misses
                 and ratios are those of the other requests; not with --least,
                 --floor, --one-size, --summary or a sample
    --max-idle T with --times: entries expire when they were not requested for
                 longer than T, so that their next request misses; T is in the
                 unit of the times, or if that is the second 30s, 10m, 1.5h, 7d
    --max-age T  with --times: entries expire T after their fetch, so that their
                 next request misses and fetches them anew; until then they keep
                 their room; the usual rows are at round numbers; not with
                 --all, a hit ratio or --svg
    --sample N   counts one key in N, by a hash, and estimates all requests from
                 them, with the memory of the sample; near a steep fall it may
                 be a tenth of the capacity off, and some hundred keys say
                 little; capacities are multiples of N, with --sizes from N
                 times the greatest size in the sample on

Capacities
    --at N,N,..  these capacities, in keys; else 1, 2, 5, 10, 20, 50 ..
                 up to the number of distinct keys, and where falls begin and
                 end; numbers may have units, and then decimals, as 500MB, 1.5G
                 or 64MiB: K, M, G, T (also KB ..) by 1000, KiB, MiB, GiB, TiB
                 by 1024
    --all        each capacity at which the misses fall
    --hit-ratio R, --byte-hit-ratio R
                 only the least capacity at which that part of all requests
                 hits, or of all bytes (with --sizes): 0.8 or 80%; if none has
                 it, the least with the greatest ratio there is
    --split N    divides a budget of N keys, or with --sizes of N bytes, among
                 the classes of the log: each line begins with its class and a
                 blank, with --sizes then its size and a blank, and is the key
                 as a whole, but for the time that --times has before the class;
                 the table has a row for each class, with its part, and one each
                 for this best split, equal parts, and one cache for all; with
                 --sizes, --times, --max-idle, --sample, --json and --svg only

Output
    --json       the table as JSON: an object a line, by the columns' names
    --svg        a picture instead of the table; with --sizes it has a line
                 for the bytes too
    --title TEXT, --unit TEXT, --from N, --to N
                 of the picture: its heading, the unit of its capacities, and
                 the ends of its axis
    --summary    only how many requests and distinct keys there are; with
                 --sizes also their bytes and the greatest size
    -h, --help; -V, --version

Lines are hashed with a seed from the system, which changes no result.

Status: 0 done, 2 wrong arguments or a capacity below the greatest size, 3 no
memory, 4 input or seed not read, 5 output not written, 6 a line without a size
or a time, or sizes that are too large together, and with --split a line without
a class, too many classes, or a budget below the largest object.

A fault is one line on standard error, and so is a warning about the input.
";

/// The name of the program and its version, with a newline.
pub const VERSION: &str = "clru_mrc 0.6.3+4-unreleased\n";
