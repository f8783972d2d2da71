/// Eight LOAS frames: 48 kHz, 1024, mono, a preroll element and one single element with noise filling, stream identifier 1,
/// access units A0, 10, 08, 84, 82, 01, 30 and 18.
pub const EIGHT_FRAMES: &str =
    "56E0102000F94623211CC018E400023FC01A0056E00380880056E00380840056E00380C20056E00380C10056E00380808056E00380980056E003808C00";
