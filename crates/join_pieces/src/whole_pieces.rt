// The pieces that are laid, and the sections that they are laid in. A struct with a ghost field imports all that its file does, so it stands in a file of its own.
ghost use Rattle.std.specs.Prelude.{◌≡◌, false, ◌≤◌, ◌/◌, length};
ghost use Rattle.lists.specs.Rows.{some};
ghost use Rattle.join.specs.Join.{outside};
ghost use Rattle.stage_tables.specs.StageTables.{stage_sections};
ghost use Rattle.piece_records.specs.Records.{parts_at, Whole};
ghost use Rattle.piece_records.proofs.Laws.{Whole-prop};

// `count` whole piece records, none of which is 82; "64 sections".
#[derive(Clone, Copy)]
pub struct WholePieces<'s, 'b> {
    pub sections: &'s [u8],
    pub bytes: &'b [u8],
    pub count: u32,
    pub ghost few: { length sections.now / 15 ≤ 64 },
    pub ghost whole: { Whole count bytes.now 0 } by { Whole-prop count bytes.now 0 },
    pub ghost inside: { some (outside (stage_sections sections.now)) (parts_at count bytes.now 0) ≡ false },
}
