// The sections of a table, and where in the image the bytes of each start.
ghost use Rattle.std.specs.Prelude.{◌≡◌, length, replicate};
ghost use Rattle.stage_tables.specs.StageTables.{image_check};
ghost use Rattle.stage_sections.specs.Arrays.{TakesSections};

use obj::{Refusal, Table};
use stage_symbols::take_image_places;
use stage_tables::image_table;

// Where each section's record lies in its table, and where its bytes do in the image.
#[derive(Drop)]
pub struct SectionArrays {
    pub places: [u32; 64],
    pub images: [u32; 64],
}

// The sections of a table that passed, and the image with the places of their bytes.
#[derive(Clone, Copy)]
pub struct SectionTables<'s, 'p, 'i, 'b> {
    pub heads: Table<'s, 'p>,
    pub image: Table<'i, 'b>,
}

impl SectionArrays {
    // No section.
    pub fn new() -> SectionArrays
        ensures { result ≡ record { places = replicate 64 0; images = replicate 64 0 } }
    {
        SectionArrays {
            places: [0; 64],
            images: [0; 64],
        }
    }

    // The whole table, with all its checks; the arrays hold its places and those of the sections' bytes.
    pub fn take<'a>(
        &'a mut self,
        lengths: &[u8],
        sections: &'a [u8],
        section_places: &[u8],
        image: &'a [u8],
    ) -> Result<SectionTables<'a, 'a, 'a, 'a>, Refusal>
        ensures { TakesSections (image_check 64 lengths.now section_places.now (length image.now) sections.now) sections.now section_places.now image.now result }
    {
        let places = &mut self.places;
        let images = &mut self.images;
        let n = take_image_places(section_places, images);
        let heads = image_table(lengths, section_places, image.len(), sections, 64, places)?;
        Ok(SectionTables {
            heads,
            image: Table {
                bytes: image,
                places: &images[..n],
            },
        })
    }
}
