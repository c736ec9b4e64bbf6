// S-record lines written into lent bytes, and the sections that share an address: the leaves of document 02, (n).
#![tactic(auto)]

ghost use Rattle.std.specs.Prelude.{◌≡◌, [], ◌∷◌, ◌+◌, ◌*◌, ◌≤◌, ◌<◌, length};
ghost use Rattle.std.proofs.lemmas.List.Edits.{sets};
ghost use Rattle.fields.specs.Fields.{big, bytes_of};
ghost use Rattle.names.specs.GapName.{hexes};
ghost use Rattle.srecords.specs.Lines.{checksum, counted, line_of, share_address};
ghost use Rattle.srecord_lines.specs.Leaves.{line_head, line_tail, Sum};

use names::put_hexes;
use obj::Section;

// The sum of the bytes: at most 250, as each function says that the data of a line goes through; a struct of the one slice would be no plainer.
fn sum_of(bytes: &[u8]) -> u32
    requires { length bytes.now ≤ 250 }
    ensures { Sum bytes.now 64000 result }
{
    bytes.iter().map(|byte| u32::from(*byte)).sum()
}

// `S`, the type, how many bytes follow, and the address.
fn put_head(out: &mut [u8], at: usize, kind: u8, count: u8, address: u32)
    requires { at + 12 ≤ length out.old }
    ensures { out.new ≡ sets out.old at (line_head kind count address) }
{
    out[at] = b'S';
    out[at + 1] = kind;
    put_hexes(out, at + 2, &[count]);
    put_hexes(out, at + 4, &address.to_be_bytes());
}

// The checksum and the line feed.
fn put_tail(out: &mut [u8], at: usize, check: u8)
    requires { at + 3 ≤ length out.old }
    ensures { out.new ≡ sets out.old at (line_tail check) }
{
    put_hexes(out, at, &[check]);
    out[at + 2] = b'\n';
}

// The checksum of a line: "the ones' complement of the low byte of the sum of count, address and data".
fn check_of(address: u32, bytes: &[u8]) -> u8
    requires { length bytes.now ≤ 250 }
    ensures { result ≡ checksum (counted address bytes.now) }
{
    let total = (bytes.len() as u32) + 5 + sum_of(&address.to_be_bytes()) + sum_of(bytes);
    255 - ((total % 256) as u8)
}

// A line from `at` on; it takes 15 bytes and two for each byte of data.
pub fn put_line(out: &mut [u8], at: usize, kind: u8, address: u32, bytes: &[u8])
    requires { (length bytes.now ≤ 250) × (at + 15 + 2 * length bytes.now ≤ length out.old) }
    ensures { out.new ≡ sets out.old at (line_of kind address bytes.now) }
{
    let count = (bytes.len() + 5) as u8;
    let check = check_of(address, bytes);
    let end = at + 12 + 2 * bytes.len();
    put_head(out, at, kind, count, address);
    put_hexes(out, at + 12, bytes);
    put_tail(out, end, check);
}

// Two sections that hold bytes share an address: both are there between the higher start and the lower end.
pub fn share_address(s: Section, t: Section) -> bool
    ensures { result ≡ share_address s t }
{
    !s.is_bss()
        & !t.is_bss()
        & (s.size != 0)
        & (t.size != 0)
        & (u64::from(s.address) < t.end())
        & (u64::from(t.address) < s.end())
}
