//! *camera-sdp*.

/// Its SDP text.
pub const CAMERA: &str =
    "v=0\no=- 1 1 IN IP4 192.0.2.1\ns=Camera 1\nt=0 0\na=group:DUP primary secondary\nm=video 5004 RTP/AVP 112\nc=IN IP4 239.0.0.1/32\na=rtpmap:112 raw/90000\na=fmtp:112 sampling=YCbCr-4:2:2; width=1920; height=1080; exactframerate=60000/1001; depth=10; TCS=SDR; colorimetry=BT709; PM=2110GPM; SSN=ST2110-20:2017; TP=2110TPN; \na=mid:primary\nm=video 5006 RTP/AVP 112\nc=IN IP4 239.0.0.2/32\na=rtpmap:112 raw/90000\na=fmtp:112 sampling=YCbCr-4:2:2; width=1920; height=1080; exactframerate=60000/1001; depth=10; TCS=SDR; colorimetry=BT709; PM=2110GPM; SSN=ST2110-20:2017; TP=2110TPN; \na=mid:secondary\n";

/// The canonical line of that text.
pub const LINE: &str =
    "a=fmtp:112 sampling=YCbCr-4:2:2; width=1920; height=1080; exactframerate=60000/1001; depth=10; colorimetry=BT709; PM=2110GPM; SSN=ST2110-20:2017";
