//! The penalties that tell the output routine why it fires, and the class of footnotes.

/// The class of the insertions that are footnotes (LaTeX, \footins).
pub const FOOTNOTES: u8 = 254;

/// The penalty at which the output routine puts out all floats that it holds (ltoutput.dtx, \clearpage).
pub const CLEAR_PENALTY: i64 = -10_001;

/// The penalty at which a float or a marginal note within a paragraph is placed (ltoutput.dtx, \end@float).
pub const PAR_PENALTY: i64 = -10_002;

/// The penalty at which a float or a marginal note between paragraphs is placed (ltoutput.dtx, \end@float).
pub const VERT_PENALTY: i64 = -10_003;

/// The penalty at which the page so far is held, until the next firing places a float or a marginal note (ltoutput.dtx,
/// \end@float).
pub const HOLD_PENALTY: i64 = -10_004;
