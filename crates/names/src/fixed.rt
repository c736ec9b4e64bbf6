// Fixed names: "Label and object names are fixed byte strings, compared with a symbol's name bytes in the splitting end and walk."
ghost use Rattle.std.specs.Prelude.{◌≡◌, ℕ, List, map};
ghost use Rattle.std.proofs.Common.{Bor};
ghost use Rattle.lists.specs.Rows.{some};
ghost use Rattle.names.specs.Names.{same_name};
ghost use Rattle.names.specs.Fixed.{is_linker_object, is_linker_label, is_vector_table_end, is_bss, is_pointer_list, is_four_aligned};

use crate::same;

// "linker labels", by their length.
static LABELS_OF_6: [&[u8]; 4] = [b"_ctors", b"_dtors", b"_f_bss", b"_e_bss"];

static LABELS_OF_7: [&[u8]; 10] = [
    b"_f_init", b"_e_init", b"_fextab", b"_eextab", b"_f_text", b"_e_text", b"_f_data", b"_e_data",
    b"_f_sbss", b"_e_sbss",
];

static LABELS_OF_8: [&[u8]; 10] = [
    b"_f_ctors",
    b"_e_ctors",
    b"_f_dtors",
    b"_e_dtors",
    b"_f_sdata",
    b"_e_sdata",
    b"_f_sbss2",
    b"_e_sbss2",
    b"_f_stack",
    b"_e_stack",
];

static LABELS_OF_9: [&[u8]; 5] = [
    b"_f_rodata",
    b"_e_rodata",
    b"_f_sdata2",
    b"_e_sdata2",
    b"_heap_end",
];

static LABELS_OF_10: [&[u8]; 4] = [b"_f_bss_rom", b"_stack_end", b"_heap_addr", b"_SDA_BASE_"];

static LABELS_OF_11: [&[u8]; 7] = [
    b"_f_init_rom",
    b"_fextab_rom",
    b"_f_text_rom",
    b"_f_data_rom",
    b"_f_sbss_rom",
    b"_stack_addr",
    b"_SDA2_BASE_",
];

static LABELS_OF_12: [&[u8]; 8] = [
    b"_fextabindex",
    b"_eextabindex",
    b"_f_ctors_rom",
    b"_f_dtors_rom",
    b"_f_sdata_rom",
    b"_f_sbss2_rom",
    b"_f_stack_rom",
    b"_nbfunctions",
];

static LABELS_OF_13: [&[u8]; 3] = [b"_f_rodata_rom", b"_f_sdata2_rom", b"_db_stack_end"];

static LABELS_OF_14: [&[u8]; 3] = [b"_db_stack_addr", b"SIZEOF_HEADERS", b"_ABS_SDA_BASE_"];

static LABELS_OF_15: [&[u8]; 1] = [b"_ABS_SDA2_BASE_"];

static LABELS_OF_16: [&[u8]; 1] = [b"_fextabindex_rom"];

// The name is one of the texts. By std's `contains`, asking 21 names for a label and an object takes two and a half times as many instructions.
fn is_one_of(name: &[u8], texts: &[&[u8]]) -> bool
    ensures { result ≡ some (same_name name.now) (map (λ (t : Bor (List ℕ)). t.now) texts.now) }
{
    texts.iter().any(|text| same(name, text))
}

// "`.bss`"
pub fn is_bss(name: &[u8]) -> bool
    ensures { result ≡ is_bss name.now }
{
    same(name, b".bss")
}

// "`.ctors` or `.dtors`"
pub fn is_pointer_list(name: &[u8]) -> bool
    ensures { result ≡ is_pointer_list name.now }
{
    is_one_of(name, &[b".ctors", b".dtors"])
}

// "`.ctors`, `.dtors`, `extab`, `extabindex`: 4". One by one, which LLVM makes a test of the length: by `is_one_of` a walk of 1,024 splits without an
// alignment of their own takes an eighth more instructions.
pub fn is_four_aligned(name: &[u8]) -> bool
    ensures { result ≡ is_four_aligned name.now }
{
    same(name, b".ctors") | same(name, b".dtors") | same(name, b"extab") | same(name, b"extabindex")
}

// "`gTRKInterruptVectorTableEnd`"
pub fn is_vector_table_end(name: &[u8]) -> bool
    ensures { result ≡ is_vector_table_end name.now }
{
    same(name, b"gTRKInterruptVectorTableEnd")
}

// "one of the five linker object names"
pub fn is_linker_generated_object(name: &[u8]) -> bool
    ensures { result ≡ is_linker_object name.now }
{
    is_one_of(
        name,
        &[
            b"_eti_init_info",
            b"_rom_copy_info",
            b"_bss_init_info",
            b"_ctors$99",
            b"_dtors$99",
        ],
    )
}

// "linker labels": a name is compared with the labels of its length. Comparing each name with all 56 takes the walk four times as long.
pub fn is_linker_generated_label(name: &[u8]) -> bool
    ensures { result ≡ is_linker_label name.now }
{
    match name.len() {
        6 => is_one_of(name, &LABELS_OF_6),
        7 => is_one_of(name, &LABELS_OF_7),
        8 => is_one_of(name, &LABELS_OF_8),
        9 => is_one_of(name, &LABELS_OF_9),
        10 => is_one_of(name, &LABELS_OF_10),
        11 => is_one_of(name, &LABELS_OF_11),
        12 => is_one_of(name, &LABELS_OF_12),
        13 => is_one_of(name, &LABELS_OF_13),
        14 => is_one_of(name, &LABELS_OF_14),
        15 => is_one_of(name, &LABELS_OF_15),
        16 => is_one_of(name, &LABELS_OF_16),
        _ => false,
    }
}
