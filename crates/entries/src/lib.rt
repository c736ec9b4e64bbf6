// The stage entries over the C convention, "extern "C" on numbers and byte slices": each asks nothing of its caller, and its contract says
// the answer and every byte of its outputs for every input. The header is include/mizhakkon.h.
#![tactic(auto)]

ghost use Rattle.std.specs.Prelude.{◌≡◌, map, length};
ghost use Rattle.tables.specs.Tables.{main_ceilings};
ghost use Rattle.load.specs.Load.{load_of};
ghost use Rattle.obj.specs.Answers.{outcome_word};
ghost use Rattle.entry_check_tables.specs.Entry.{tables_of};
ghost use Rattle.entry_toposort.specs.Entry.{toposort_of, Leaves};
ghost use Rattle.entry_check_file.specs.Entry.{Leaves as LeavesCounts};
ghost use Rattle.entry_questions.specs.Entry.{end_answer, alignment_answer, Leaves as LeavesNumber};
ghost use Rattle.stage_splits.specs.StageSplits.{Leaves as LeavesSplits};
ghost use Rattle.common.specs.Common.{marked};
ghost use Rattle.entry_update_common_splits.specs.Entry.{update_of};
ghost use Rattle.entry_validate_splits.specs.Entry.{validate_of};
ghost use Rattle.entry_add_splits.specs.Entry.{add_splits_of};
ghost use Rattle.entry_mend_splits.specs.Entry.{mend_splits_of};
ghost use Rattle.mend_outputs.specs.Outputs.{Leaves as LeavesMended};
ghost use Rattle.entry_trim_splits.specs.Entry.{trim_of};
ghost use Rattle.entry_create_gap_splits.specs.Entry.{gap_splits_of, Leaves as LeavesGaps};
ghost use Rattle.stage_tables.specs.StageTables.{stage_splits, stage_units};
ghost use Rattle.entry_resolve_link_order.specs.Entry.{resolve_of, Leaves as LeavesUnits};
ghost use Rattle.stage_walk.specs.Room.{room_in};
ghost use Rattle.entry_split_obj.specs.Entry.{split_obj_of, Leaves as LeavesPieces};
ghost use Rattle.entry_split_obj.specs.Lines.{sizes_of};
ghost use Rattle.entry_piece_bytes.specs.Entry.{place_of, Leaves as LeavesPlace};
ghost use Rattle.kept_output.specs.Kept.{Leaves as LeavesJoined};
ghost use Rattle.entry_join_pieces.specs.Entry.{join_pieces};
ghost use Rattle.import.specs.Import.{import_of};
ghost use Rattle.entry_import_elf.specs.Entry.{rooms_of, Leaves as LeavesImported};
ghost use Rattle.entry_write_srecords.specs.Entry.{Called as CalledLines};
ghost use Rattle.entry_split_file.specs.Entry.{split_file_of, Leaves as LeavesRun};
ghost use Rattle.run_outputs.specs.Kept.{sizes_of as sizesOfRun};

use obj::Split;

#[unsafe(no_mangle)]
pub extern "C" fn toposort(nodes: u32, edges: &[u8], out: &mut [u8], counts: &mut [u8]) -> u64
    ensures { Leaves (toposort_of nodes edges.now (length out.old)) (length out.old) (length counts.old) result out.new counts.new }
{
    entry_toposort::toposort(nodes, edges, out, counts)
}

#[unsafe(no_mangle)]
pub extern "C" fn check_file(file: &[u8], counts: &mut [u8]) -> u64
    ensures { LeavesCounts (load_of main_ceilings file.now) (length counts.old) result counts.new }
{
    entry_check_file::check_file(file, counts)
}

#[unsafe(no_mangle)]
pub extern "C" fn check_tables(
    name_ends: &[u8],
    name_bytes: &[u8],
    sections: &[u8],
    section_places: &[u8],
    image: &[u8],
    symbols: &[u8],
    relocations: &[u8],
    splits: &[u8],
    units: &[u8],
) -> u64
    ensures { result ≡ outcome_word (tables_of name_ends.now name_bytes.now sections.now section_places.now image.now symbols.now relocations.now splits.now units.now) }
{
    entry_check_tables::check_tables(
        name_ends,
        name_bytes,
        sections,
        section_places,
        image,
        symbols,
        relocations,
        splits,
        units,
    )
}

#[unsafe(no_mangle)]
pub extern "C" fn end_for_section(
    name_ends: &[u8],
    name_bytes: &[u8],
    sections: &[u8],
    section_places: &[u8],
    image: &[u8],
    symbols: &[u8],
    section: u16,
    end: &mut [u8],
) -> u64
    ensures { LeavesNumber (end_answer name_ends.now name_bytes.now sections.now section_places.now image.now symbols.now section) (length end.old) result end.new }
{
    entry_questions::end_for_section(
        name_ends,
        name_bytes,
        sections,
        section_places,
        image,
        symbols,
        section,
        end,
    )
}

#[unsafe(no_mangle)]
pub extern "C" fn split_alignment(
    name_ends: &[u8],
    name_bytes: &[u8],
    sections: &[u8],
    section_places: &[u8],
    image: &[u8],
    symbols: &[u8],
    splits: &[u8],
    which: u16,
    alignment: &mut [u8],
) -> u64
    ensures { LeavesNumber (alignment_answer name_ends.now name_bytes.now sections.now section_places.now image.now symbols.now splits.now which) (length alignment.old) result alignment.new }
{
    entry_questions::split_alignment(
        name_ends,
        name_bytes,
        sections,
        section_places,
        image,
        symbols,
        splits,
        which,
        alignment,
    )
}

#[unsafe(no_mangle)]
pub extern "C" fn update_common_splits(
    name_ends: &[u8],
    name_bytes: &[u8],
    sections: &[u8],
    splits: &[u8],
    has_start: u8,
    start: u32,
    out: &mut [u8],
    counts: &mut [u8],
) -> u64
    ensures { LeavesSplits (update_of name_ends.now name_bytes.now sections.now splits.now has_start start (length out.old))
        (length out.old) (length counts.old) result out.new counts.new }
{
    entry_update_common_splits::update_common_splits(
        name_ends, name_bytes, sections, splits, has_start, start, out, counts,
    )
}

// The marking alone, "on a lent slice of split records".
#[unsafe(no_mangle)]
pub extern "C" fn mark_common_splits(splits: &mut [Split], section: u16, address: u32)
    ensures { splits.new ≡ map (marked section address) splits.old }
{
    common::mark_common_splits(splits, common::Start { section, address })
}

#[unsafe(no_mangle)]
pub extern "C" fn validate_splits(
    name_ends: &[u8],
    name_bytes: &[u8],
    sections: &[u8],
    symbols: &[u8],
    splits: &[u8],
) -> u64
    ensures { result ≡ outcome_word (validate_of name_ends.now name_bytes.now sections.now symbols.now splits.now) }
{
    entry_validate_splits::validate_splits(name_ends, name_bytes, sections, symbols, splits)
}

#[unsafe(no_mangle)]
pub extern "C" fn trim_splits(
    name_ends: &[u8],
    name_bytes: &[u8],
    sections: &[u8],
    section_places: &[u8],
    image: &[u8],
    symbols: &[u8],
    splits: &[u8],
    out: &mut [u8],
    counts: &mut [u8],
) -> u64
    ensures { LeavesSplits
        (trim_of name_ends.now name_bytes.now sections.now section_places.now image.now symbols.now splits.now (length out.old))
        (length out.old) (length counts.old) result out.new counts.new }
{
    entry_trim_splits::trim_splits(
        name_ends,
        name_bytes,
        sections,
        section_places,
        image,
        symbols,
        splits,
        out,
        counts,
    )
}

#[unsafe(no_mangle)]
pub extern "C" fn split_obj(
    name_ends: &[u8],
    name_bytes: &[u8],
    sections: &[u8],
    section_places: &[u8],
    image: &[u8],
    symbols: &[u8],
    relocations: &[u8],
    splits: &[u8],
    units: &[u8],
    pieces: &mut [u8],
    piece_symbols: &mut [u8],
    piece_relocations: &mut [u8],
    counts: &mut [u8],
) -> u64
    ensures { LeavesPieces
        (split_obj_of name_ends.now name_bytes.now sections.now section_places.now image.now symbols.now relocations.now splits.now units.now (room_in (length pieces.old) (length piece_symbols.old) (length piece_relocations.old)))
        (sizes_of pieces.old piece_symbols.old piece_relocations.old counts.old) result pieces.new piece_symbols.new piece_relocations.new counts.new }
{
    entry_split_obj::split_obj(
        name_ends,
        name_bytes,
        sections,
        section_places,
        image,
        symbols,
        relocations,
        splits,
        units,
        pieces,
        piece_symbols,
        piece_relocations,
        counts,
    )
}

#[unsafe(no_mangle)]
pub extern "C" fn add_splits(
    name_ends: &[u8],
    name_bytes: &[u8],
    sections: &[u8],
    splits: &[u8],
    partials: &[u8],
    out_splits: &mut [u8],
    counts: &mut [u8],
) -> u64
    ensures { LeavesSplits (add_splits_of name_ends.now name_bytes.now sections.now splits.now partials.now (length out_splits.old))
        (length out_splits.old) (length counts.old) result out_splits.new counts.new }
{
    entry_add_splits::add_splits(
        name_ends, name_bytes, sections, splits, partials, out_splits, counts,
    )
}

#[unsafe(no_mangle)]
pub extern "C" fn mend_splits(
    name_ends: &[u8],
    name_bytes: &[u8],
    sections: &[u8],
    splits: &[u8],
    out_splits: &mut [u8],
    lines: &mut [u8],
    counts: &mut [u8],
) -> u64
    ensures { LeavesMended (mend_splits_of name_ends.now name_bytes.now sections.now splits.now (length out_splits.old) (length lines.old))
        out_splits.old lines.old counts.old result out_splits.new lines.new counts.new }
{
    entry_mend_splits::mend_splits(
        name_ends, name_bytes, sections, splits, out_splits, lines, counts,
    )
}

#[unsafe(no_mangle)]
pub extern "C" fn resolve_link_order(
    name_ends: &[u8],
    name_bytes: &[u8],
    sections: &[u8],
    splits: &[u8],
    units: &[u8],
    out_units: &mut [u8],
    counts: &mut [u8],
) -> u64
    ensures { LeavesUnits (stage_splits splits.now) (stage_units units.now)
        (resolve_of name_ends.now name_bytes.now sections.now splits.now units.now (length out_units.old))
        (length out_units.old) (length counts.old) result out_units.new counts.new }
{
    entry_resolve_link_order::resolve_link_order(
        name_ends, name_bytes, sections, splits, units, out_units, counts,
    )
}

#[unsafe(no_mangle)]
pub extern "C" fn piece_bytes(
    sections: &[u8],
    section_places: &[u8],
    image: &[u8],
    pieces: &[u8],
    which: u32,
    place: &mut [u8],
) -> u64
    ensures { LeavesPlace (place_of sections.now section_places.now image.now pieces.now which) (length place.old) result place.new }
{
    entry_piece_bytes::piece_bytes(sections, section_places, image, pieces, which, place)
}

#[unsafe(no_mangle)]
pub extern "C" fn join_pieces(
    name_ends: &[u8],
    name_bytes: &[u8],
    sections: &[u8],
    pieces: &[u8],
    joined: &mut [u8],
    size: &mut [u8],
) -> u64
    ensures { LeavesJoined (join_pieces name_ends.now name_bytes.now sections.now pieces.now (length joined.old)) joined.old size.old result joined.new size.new }
{
    entry_join_pieces::join_pieces(name_ends, name_bytes, sections, pieces, joined, size)
}

#[unsafe(no_mangle)]
pub extern "C" fn write_srecords(
    name_ends: &[u8],
    name_bytes: &[u8],
    sections: &[u8],
    pieces: &[u8],
    lines: &mut [u8],
    size: &mut [u8],
) -> u64
    ensures { CalledLines name_ends.now name_bytes.now sections.now pieces.now lines.old size.old result lines.new size.new }
{
    entry_write_srecords::write_srecords(name_ends, name_bytes, sections, pieces, lines, size)
}

#[unsafe(no_mangle)]
pub extern "C" fn create_gap_splits(
    name_ends: &[u8],
    name_bytes: &[u8],
    sections: &[u8],
    section_places: &[u8],
    image: &[u8],
    symbols: &[u8],
    splits: &[u8],
    out_name_ends: &mut [u8],
    out_name_bytes: &mut [u8],
    out_splits: &mut [u8],
    counts: &mut [u8],
) -> u64
    ensures { LeavesGaps
        (gap_splits_of name_ends.now name_bytes.now sections.now section_places.now image.now symbols.now splits.now (length out_name_ends.old) (length out_name_bytes.old) (length out_splits.old))
        (length out_name_ends.old) (length out_name_bytes.old) (length out_splits.old) (length counts.old) result out_name_ends.new out_name_bytes.new out_splits.new counts.new }
{
    entry_create_gap_splits::create_gap_splits(
        name_ends,
        name_bytes,
        sections,
        section_places,
        image,
        symbols,
        splits,
        out_name_ends,
        out_name_bytes,
        out_splits,
        counts,
    )
}

#[unsafe(no_mangle)]
pub extern "C" fn import_elf(
    file: &[u8],
    name_ends: &mut [u8],
    name_bytes: &mut [u8],
    sections: &mut [u8],
    section_places: &mut [u8],
    symbols: &mut [u8],
    counts: &mut [u8],
) -> u64
    ensures { LeavesImported (import_of file.now (rooms_of (length name_ends.old) (length name_bytes.old) (length sections.old) (length section_places.old) (length symbols.old))) result
        name_ends.old name_bytes.old sections.old section_places.old symbols.old counts.old
        name_ends.new name_bytes.new sections.new section_places.new symbols.new counts.new }
{
    entry_import_elf::import_elf(
        file,
        name_ends,
        name_bytes,
        sections,
        section_places,
        symbols,
        counts,
    )
}

#[unsafe(no_mangle)]
pub extern "C" fn split_file(
    file: &[u8],
    added_name_ends: &mut [u8],
    added_name_bytes: &mut [u8],
    out_splits: &mut [u8],
    out_units: &mut [u8],
    pieces: &mut [u8],
    piece_symbols: &mut [u8],
    piece_relocations: &mut [u8],
    counts: &mut [u8],
) -> u64
    ensures { LeavesRun
        (split_file_of file.now (sizesOfRun added_name_ends.old added_name_bytes.old out_splits.old out_units.old pieces.old piece_symbols.old piece_relocations.old counts.old))
        (sizesOfRun added_name_ends.old added_name_bytes.old out_splits.old out_units.old pieces.old piece_symbols.old piece_relocations.old counts.old)
        result added_name_ends.new added_name_bytes.new out_splits.new out_units.new pieces.new piece_symbols.new piece_relocations.new counts.new }
{
    entry_split_file::split_file(
        file,
        added_name_ends,
        added_name_bytes,
        out_splits,
        out_units,
        pieces,
        piece_symbols,
        piece_relocations,
        counts,
    )
}
