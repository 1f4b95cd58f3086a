// The builder.
ghost use Rattle.std.specs.Prelude.{◌≡◌, length};
ghost use Rattle.format.specs.Build.{build, build_length, out_after};
ghost use Rattle.codes.specs.Answers.{coded, Tells, layout_by};

use codes::counted;

// Writes the given entries as an archive behind the first `header` bytes of the output, which stay. The archive's end.
#[unsafe(no_mangle)]
pub extern "C" fn fieldmap_build(
    width: u8,
    entries: usize,
    out: &mut [u8],
    header: usize,
    keys: &[u64],
    values: &[u64],
) -> i64
    ensures answer { result ≡ coded (λ n. n) (build (layout_by width entries) keys.now values.now header (length out.old)) }
    ensures told { Tells result (build (layout_by width entries) keys.now values.now header (length out.old)) }
    ensures bytes { out.new ≡ out_after (layout_by width entries) keys.now values.now header out.old }
{
    counted(fieldmap::build(codes::layout(width, entries), out, header, keys, values))
}

// Where a build of so many entries behind a header will end.
#[unsafe(no_mangle)]
pub extern "C" fn fieldmap_build_length(
    width: u8,
    entries: usize,
    count: usize,
    header: usize,
) -> i64
    ensures answer { result ≡ coded (λ n. n) (build_length (layout_by width entries) count header) }
    ensures told { Tells result (build_length (layout_by width entries) count header) }
{
    counted(fieldmap::build_length(codes::layout(width, entries), count, header))
}
