/// Configuration of a simulated controller.
#[derive(Clone, Copy, Debug, PartialEq, Eq)]
pub struct SimConfig {
    /// Maximum octets of an ACL packet from the host, as reported.
    pub acl_len: u16,
    /// Number of ACL packets that the controller stores, as reported.
    pub packets: u8,
    /// True if all transports share the buffers, so that only Read Buffer Size reports them.
    pub shared: bool,
    /// Maximum octets of data of an ACL packet to the host, from 1 to `le_acl::MAX_ACL_LEN`.
    pub cut: u16,
}
