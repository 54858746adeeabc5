/// Where the chroma samples of 4:2:0 lie (the AV1 specification's chroma_sample_position).
#[derive(Clone, Copy, Debug, Default, PartialEq, Eq)]
pub enum ChromaSamplePosition {
    /// Not known.
    #[default]
    Unknown = 0,
    /// In line with luma columns, half-way between luma rows.
    Vertical = 1,
    /// At luma samples.
    Colocated = 2,
}

/// The primaries of a colour space (the AV1 specification's color_primaries, after ITU-T H.273).
#[derive(Clone, Copy, Debug, Default, PartialEq, Eq)]
pub enum ColorPrimaries {
    /// ITU-R BT.709.
    BT709 = 1,
    /// Not known, or given by the application.
    #[default]
    Unspecified = 2,
    /// ITU-R BT.470, system M.
    BT470M = 4,
    /// ITU-R BT.470, systems B and G.
    BT470BG = 5,
    /// ITU-R BT.601.
    BT601 = 6,
    /// SMPTE 240M.
    SMPTE240 = 7,
    /// Generic film, with illuminant C.
    GenericFilm = 8,
    /// ITU-R BT.2020 and BT.2100.
    BT2020 = 9,
    /// CIE 1931 XYZ.
    XYZ = 10,
    /// SMPTE RP 431-2.
    SMPTE431 = 11,
    /// SMPTE EG 432-1.
    SMPTE432 = 12,
    /// EBU Tech. 3213-E.
    EBU3213 = 22,
}

/// The opto-electronic transfer (the AV1 specification's transfer_characteristics, after ITU-T H.273).
#[derive(Clone, Copy, Debug, Default, PartialEq, Eq)]
pub enum TransferCharacteristics {
    /// ITU-R BT.709.
    BT709 = 1,
    /// Not known, or given by the application.
    #[default]
    Unspecified = 2,
    /// ITU-R BT.470, system M.
    BT470M = 4,
    /// ITU-R BT.470, systems B and G.
    BT470BG = 5,
    /// ITU-R BT.601.
    BT601 = 6,
    /// SMPTE 240M.
    SMPTE240 = 7,
    /// Linear.
    Linear = 8,
    /// Logarithmic, over a range of 100 : 1.
    Log100 = 9,
    /// Logarithmic, over a range of 100 times the root of 10 : 1.
    Log100Sqrt10 = 10,
    /// IEC 61966-2-4.
    IEC61966 = 11,
    /// ITU-R BT.1361.
    BT1361 = 12,
    /// sRGB or sYCC.
    SRGB = 13,
    /// ITU-R BT.2020, 10 bits.
    BT2020_10Bit = 14,
    /// ITU-R BT.2020, 12 bits.
    BT2020_12Bit = 15,
    /// SMPTE ST 2084, the perceptual quantizer.
    SMPTE2084 = 16,
    /// SMPTE ST 428-1.
    SMPTE428 = 17,
    /// Hybrid log-gamma, of ITU-R BT.2100.
    HLG = 18,
}

/// The matrix from primaries to luma and chroma (the AV1 specification's matrix_coefficients, after ITU-T H.273).
#[derive(Clone, Copy, Debug, Default, PartialEq, Eq)]
pub enum MatrixCoefficients {
    /// No matrix: green, blue and red.
    Identity = 0,
    /// ITU-R BT.709.
    BT709 = 1,
    /// Not known, or given by the application.
    #[default]
    Unspecified = 2,
    /// US FCC 73.628.
    FCC = 4,
    /// ITU-R BT.470, systems B and G.
    BT470BG = 5,
    /// ITU-R BT.601.
    BT601 = 6,
    /// SMPTE 240M.
    SMPTE240 = 7,
    /// YCgCo.
    YCgCo = 8,
    /// ITU-R BT.2020, non-constant luminance.
    BT2020NCL = 9,
    /// ITU-R BT.2020, constant luminance.
    BT2020CL = 10,
    /// SMPTE ST 2085.
    SMPTE2085 = 11,
    /// Derived from the primaries, non-constant luminance.
    ChromatNCL = 12,
    /// Derived from the primaries, constant luminance.
    ChromatCL = 13,
    /// ICtCp, of ITU-R BT.2100.
    ICtCp = 14,
}

/// The colours that the samples stand for.
#[derive(Clone, Copy, Debug)]
pub struct ColorDescription {
    /// The primaries.
    pub color_primaries: ColorPrimaries,
    /// The transfer.
    pub transfer_characteristics: TransferCharacteristics,
    /// The matrix.
    pub matrix_coefficients: MatrixCoefficients,
}

/// The range of sample values (the AV1 specification's color_range).
#[derive(Clone, Copy, Debug, Default, PartialEq, Eq)]
pub enum PixelRange {
    /// Studio swing: 16 to 235 for luma of 8 bits.
    #[default]
    Limited = 0,
    /// All values.
    Full = 1,
}

/// How bright the content is (the AV1 specification's metadata_hdr_cll), in candelas per square metre.
#[derive(Clone, Copy, Debug)]
pub struct ContentLight {
    /// The brightest sample.
    pub max_content_light_level: u16,
    /// The brightest average of a frame.
    pub max_frame_average_light_level: u16,
}

/// A point of the CIE 1931 chromaticity diagram, each coordinate in units of 1/65536.
#[derive(Clone, Copy, Debug)]
pub struct ChromaticityPoint {
    /// The first coordinate.
    pub x: u16,
    /// The second coordinate.
    pub y: u16,
}

/// The display that the content was mastered on (the AV1 specification's metadata_hdr_mdcv).
#[derive(Clone, Copy, Debug)]
pub struct MasteringDisplay {
    /// Red, green and blue.
    pub primaries: [ChromaticityPoint; 3],
    /// White.
    pub white_point: ChromaticityPoint,
    /// The greatest luminance, in units of 1/256 candela per square metre.
    pub max_luminance: u32,
    /// The least luminance, in units of 1/16384 candela per square metre.
    pub min_luminance: u32,
}
