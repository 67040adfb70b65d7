//! That alignments fit at each row.
ghost use Rattle.core_node_laws.specs.built_unit_laws.align_laws.Aligns.{AlignsFit, AskedAlignsFit};

/// Where all else that each row is asked with fits, alignments are numbers that `_Alignof` may give (C11 6.2.8, 6.5.3.4): none is above 16.
pub fn aligns_fit()
    ensures { AlignsFit }
{}

/// So they are where what each row asks fits.
pub fn asked_aligns_fit()
    ensures { AskedAlignsFit }
{}
