use coding_base::{Bytes, Sequence};

/// The metadata blocks of a frame, in their order.
pub type T35List = Sequence<T35>;

/// A block of metadata that somebody else defines (the AV1 specification's metadata_itut_t35, after ITU-T T.35).
#[derive(Debug, Drop)]
pub struct T35 {
    /// The country or organisation that defines the rest (itu_t_t35_country_code).
    pub country_code: u8,
    /// The second byte of that code, where the first is 255 (itu_t_t35_country_code_extension_byte).
    pub country_code_extension_byte: u8,
    /// The bytes that it defines (itu_t_t35_payload_bytes).
    pub payload: Bytes,
}
