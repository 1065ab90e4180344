//! The registry of everyday formats, which the program has in itself: registries/common.csv, written here by
//! tools/embed.py.

/// Returns the bytes of the registry, a file of 1,694 records. Allocates nothing. It has no contract: the tests run
/// `tools/embed.py --check`, which compares the bytes with the file.
pub fn common_registry() -> &'static [u8] {
    COMMON.as_bytes()
}

const COMMON: &str = "\
F,fmt/3,Graphics Interchange Format,87a,image/gif,
E,fmt/3,gif,,,
S,fmt/3,BOF,0,0,474946383761
F,fmt/4,Graphics Interchange Format,89a,image/gif,
E,fmt/4,gif,,,
S,fmt/4,BOF,0,0,474946383961
F,fmt/11,Portable Network Graphics,1.0,image/png,
E,fmt/11,png,,,
S,fmt/11,BOF,0,0,89504E470D0A1A0A0000000D49484452
F,fmt/12,Portable Network Graphics,1.1,image/png,
E,fmt/12,png,,,
S,fmt/12,BOF,0,0,89504E470D0A1A0A0000000D49484452{17-*}[00:7F]??????(69434350|73504C54|73524742)
F,fmt/13,Portable Network Graphics,1.2,image/png,
E,fmt/13,png,,,
S,fmt/13,BOF,0,0,89504E470D0A1A0A0000000D49484452{17-*}[00:7F]??????69545874
F,fmt/935,Animated Portable Network Graphics,,image/apng,
E,fmt/935,png,,,
E,fmt/935,apng,,,
S,fmt/935,BOF,0,0,89504E470D0A1A0A0000000D49484452{17-*}000000086163544C
F,fmt/41,Raw JPEG Stream,,image/jpeg,
E,fmt/41,jpg,,,
E,fmt/41,jpeg,,,
E,fmt/41,jpe,,,
S,fmt/41,BOF,0,0,FFD8FF[C0:FE]
F,fmt/42,JPEG File Interchange Format,1.00,image/jpeg,
E,fmt/42,jpg,,,
E,fmt/42,jpeg,,,
E,fmt/42,jpe,,,
E,fmt/42,jfif,,,
S,fmt/42,BOF,0,0,FFD8FFE0{2}4A464946000100
F,fmt/43,JPEG File Interchange Format,1.01,image/jpeg,
E,fmt/43,jpg,,,
E,fmt/43,jpeg,,,
E,fmt/43,jpe,,,
E,fmt/43,jfif,,,
S,fmt/43,BOF,0,0,FFD8FFE0{2}4A464946000101
F,fmt/44,JPEG File Interchange Format,1.02,image/jpeg,
E,fmt/44,jpg,,,
E,fmt/44,jpeg,,,
E,fmt/44,jpe,,,
E,fmt/44,jfif,,,
S,fmt/44,BOF,0,0,FFD8FFE0{2}4A464946000102
F,movkrin/jpeg-exif,Exchangeable Image File Format (compressed),,image/jpeg,
E,movkrin/jpeg-exif,jpg,,,
E,movkrin/jpeg-exif,jpeg,,,
E,movkrin/jpeg-exif,jpe,,,
S,movkrin/jpeg-exif,BOF,0,0,FFD8FFE1{2}457869660000(49492A00|4D4D002A)
F,x-fmt/398,Exchangeable Image File Format (compressed),2.0,image/jpeg,
E,x-fmt/398,jpg,,,
E,x-fmt/398,jpeg,,,
E,x-fmt/398,jpe,,,
S,x-fmt/398,BOF,0,0,FFD8FFE1{2}45786966000049492A00*009007000400000030323030
S,x-fmt/398,BOF,0,0,FFD8FFE1{2}4578696600004D4D002A*900000070000000430323030
F,x-fmt/390,Exchangeable Image File Format (compressed),2.1,image/jpeg,
E,x-fmt/390,jpg,,,
E,x-fmt/390,jpeg,,,
E,x-fmt/390,jpe,,,
S,x-fmt/390,BOF,0,0,FFD8FFE1{2}45786966000049492A00*009007000400000030323130
S,x-fmt/390,BOF,0,0,FFD8FFE1{2}4578696600004D4D002A*900000070000000430323130
F,x-fmt/391,Exchangeable Image File Format (compressed),2.2,image/jpeg,
E,x-fmt/391,jpg,,,
E,x-fmt/391,jpeg,,,
E,x-fmt/391,jpe,,,
S,x-fmt/391,BOF,0,0,FFD8FFE1{2}45786966000049492A00*009007000400000030323230
S,x-fmt/391,BOF,0,0,FFD8FFE1{2}4578696600004D4D002A*900000070000000430323230
F,fmt/645,Exchangeable Image File Format (compressed),2.2.1,image/jpeg,
E,fmt/645,jpg,,,
E,fmt/645,jpeg,,,
E,fmt/645,jpe,,,
S,fmt/645,BOF,0,0,FFD8FFE1{2}45786966000049492A00*009007000400000030323231
S,fmt/645,BOF,0,0,FFD8FFE1{2}4578696600004D4D002A*900000070000000430323231
F,x-fmt/392,JPEG 2000 JP2,,image/jp2,
E,x-fmt/392,jp2,,,
S,x-fmt/392,BOF,0,0,0000000C6A5020200D0A870A{4}667479706A703220
F,fmt/151,JPEG 2000 JPX,,image/jpx,
E,fmt/151,jpx,,,
E,fmt/151,jpf,,,
S,fmt/151,BOF,0,0,0000000C6A5020200D0A870A{4}667479706A707820
F,movkrin/j2c,JPEG 2000 codestream,,image/j2c,
E,movkrin/j2c,j2c,,,
E,movkrin/j2c,j2k,,,
E,movkrin/j2c,jpc,,,
S,movkrin/j2c,BOF,0,0,FF4FFF51
F,movkrin/jxl,JPEG XL,,image/jxl,
E,movkrin/jxl,jxl,,,
S,movkrin/jxl,BOF,0,0,0000000C4A584C200D0A870A
S,movkrin/jxl,BOF,0,0,FF0A
F,movkrin/jxr,JPEG XR,,image/jxr,
E,movkrin/jxr,jxr,,,
E,movkrin/jxr,wdp,,,
E,movkrin/jxr,hdp,,,
S,movkrin/jxr,BOF,0,0,4949BC01
F,fmt/353,Tagged Image File Format,,image/tiff,
E,fmt/353,tif,,,
E,fmt/353,tiff,,,
S,fmt/353,BOF,0,0,49492A00
S,fmt/353,BOF,0,0,4D4D002A
F,movkrin/bigtiff,Big Tagged Image File Format,,image/tiff,
E,movkrin/bigtiff,tif,,,
E,movkrin/bigtiff,tiff,,,
E,movkrin/bigtiff,btf,,,
S,movkrin/bigtiff,BOF,0,0,49492B0008000000
S,movkrin/bigtiff,BOF,0,0,4D4D002B00080000
F,movkrin/dng,Digital Negative,,image/x-adobe-dng,
E,movkrin/dng,dng,,,
S,movkrin/dng,BOF,0,0,49492A00*12C6010004000000
S,movkrin/dng,BOF,0,0,4D4D002A*C612000100000004
F,fmt/592,Canon RAW,2.0,image/x-canon-cr2,
E,fmt/592,cr2,,,
S,fmt/592,BOF,0,0,49492A001000000043520200
F,movkrin/cr3,Canon RAW,3,image/x-canon-cr3,
E,movkrin/cr3,cr3,,,
S,movkrin/cr3,BOF,0,0,000000??6674797063727820
F,movkrin/crw,\"Canon RAW, CIFF\",,image/x-canon-crw,
E,movkrin/crw,crw,,,
S,movkrin/crw,BOF,0,0,49491A00000048454150434344520200
F,fmt/202,Nikon RAW,,image/x-nikon-nef,
E,fmt/202,nef,,,
E,fmt/202,nrw,,,
S,fmt/202,BOF,0,0,49492A00*030103000100000099870000
S,fmt/202,BOF,0,0,4D4D002A*010300030000000187990000
F,movkrin/arw,Sony RAW,,image/x-sony-arw,
E,movkrin/arw,arw,,,
E,movkrin/arw,sr2,,,
S,movkrin/arw,BOF,0,0,49492A00*0301030001000000FF7F0000
F,movkrin/pef,Pentax RAW,,image/x-pentax-pef,
E,movkrin/pef,pef,,,
S,movkrin/pef,BOF,0,0,4D4D002A*0103000300000001FFFF0000
F,movkrin/orf,Olympus RAW,,image/x-olympus-orf,
E,movkrin/orf,orf,,,
S,movkrin/orf,BOF,0,0,494952(4F|53)08000000
S,movkrin/orf,BOF,0,0,4D4D4F5200000008
F,movkrin/rw2,Panasonic RAW,,image/x-panasonic-rw2,
E,movkrin/rw2,rw2,,,
E,movkrin/rw2,rwl,,,
E,movkrin/rw2,raw,,,
S,movkrin/rw2,BOF,0,0,494955001800000088E774D8F8251D4D947A6E77822B5D6A
F,movkrin/raf,Fujifilm RAW,,image/x-fuji-raf,
E,movkrin/raf,raf,,,
S,movkrin/raf,BOF,0,0,46554A4946494C4D4343442D52415720[30:39][30:39][30:39][30:39]
F,movkrin/x3f,Sigma RAW,,image/x-sigma-x3f,
E,movkrin/x3f,x3f,,,
S,movkrin/x3f,BOF,0,0,464F5662[00:0F]00(02|03|04)00
F,movkrin/mrw,Minolta RAW,,image/x-minolta-mrw,
E,movkrin/mrw,mrw,,,
S,movkrin/mrw,BOF,0,0,004D524D{4}0050524400000018
F,fmt/566,WebP,lossy,image/webp,
E,fmt/566,webp,,,
S,fmt/566,BOF,0,0,52494646{4}5745425056503820
F,fmt/567,WebP,lossless,image/webp,
E,fmt/567,webp,,,
S,fmt/567,BOF,0,0,52494646{4}574542505650384C
F,fmt/568,WebP,extended,image/webp,
E,fmt/568,webp,,,
S,fmt/568,BOF,0,0,52494646{4}5745425056503858
F,movkrin/bmp-core,\"Windows or OS/2 Bitmap, core header\",,image/bmp,
E,movkrin/bmp-core,bmp,,,
E,movkrin/bmp-core,dib,,,
S,movkrin/bmp-core,BOF,0,0,424D{12}0C000000{4}0100(01|04|08|18)00
F,fmt/116,Windows Bitmap,3.0,image/bmp,
E,fmt/116,bmp,,,
E,fmt/116,dib,,,
S,fmt/116,BOF,0,0,424D{12}28000000{8}0100[00:20]00[00:02]000000
F,fmt/117,Windows Bitmap,3.0 NT,image/bmp,
E,fmt/117,bmp,,,
E,fmt/117,dib,,,
S,fmt/117,BOF,0,0,424D{12}28000000{8}0100[00:20]0003000000
F,fmt/118,Windows Bitmap,4.0,image/bmp,
E,fmt/118,bmp,,,
E,fmt/118,dib,,,
S,fmt/118,BOF,0,0,424D{12}6C000000{8}0100[00:20]00
F,fmt/119,Windows Bitmap,5.0,image/bmp,
E,fmt/119,bmp,,,
E,fmt/119,dib,,,
S,fmt/119,BOF,0,0,424D{12}7C000000{8}0100[00:20]00
F,x-fmt/418,Windows icon,,image/vnd.microsoft.icon,
E,x-fmt/418,ico,,,
S,x-fmt/418,BOF,0,0,00000100[01:FF]00{3}00(00|01)00(00|01|04|08|10|18|20)00
F,fmt/385,Windows cursor,,image/x-win-bitmap,
E,fmt/385,cur,,,
S,fmt/385,BOF,0,0,00000200[01:FF]00{3}00??00??00
F,x-fmt/92,Adobe Photoshop,,image/vnd.adobe.photoshop,
E,x-fmt/92,psd,,,
S,x-fmt/92,BOF,0,0,38425053000100000000000000[01:38]
F,movkrin/psb,Adobe Photoshop large document,,image/vnd.adobe.photoshop,
E,movkrin/psb,psb,,,
S,movkrin/psb,BOF,0,0,38425053000200000000000000[01:38]
F,movkrin/xcf,GIMP image,,image/x-xcf,
E,movkrin/xcf,xcf,,,
S,movkrin/xcf,BOF,0,0,67696D702078636620(66696C65|7630)
F,movkrin/exr,OpenEXR,,image/x-exr,
E,movkrin/exr,exr,,,
S,movkrin/exr,BOF,0,0,762F3101
F,movkrin/qoi,Quite OK Image,,image/qoi,
E,movkrin/qoi,qoi,,,
S,movkrin/qoi,BOF,0,0,716F6966{8}(03|04)(00|01)
F,movkrin/dds,DirectDraw Surface,,image/vnd.ms-dds,
E,movkrin/dds,dds,,,
S,movkrin/dds,BOF,0,0,444453207C000000
F,fmt/86,PCX,0,image/vnd.zbrush.pcx,
E,fmt/86,pcx,,,
S,fmt/86,BOF,0,0,0A00(00|01)(01|02|04|08){60}00[01:04]{2}[00:02]00
F,fmt/87,PCX,2,image/vnd.zbrush.pcx,
E,fmt/87,pcx,,,
S,fmt/87,BOF,0,0,0A02(00|01)(01|02|04|08){60}00[01:04]{2}[00:02]00
F,fmt/88,PCX,3,image/vnd.zbrush.pcx,
E,fmt/88,pcx,,,
S,fmt/88,BOF,0,0,0A03(00|01)(01|02|04|08){60}00[01:04]{2}[00:02]00
F,fmt/89,PCX,4,image/vnd.zbrush.pcx,
E,fmt/89,pcx,,,
S,fmt/89,BOF,0,0,0A04(00|01)(01|02|04|08){60}00[01:04]{2}[00:02]00
F,fmt/90,PCX,5,image/vnd.zbrush.pcx,
E,fmt/90,pcx,,,
S,fmt/90,BOF,0,0,0A05(00|01)(01|02|04|08){60}00[01:04]{2}[00:02]00
F,x-fmt/367,Truevision TGA,1.0,image/x-tga,
E,x-fmt/367,tga,,,
E,x-fmt/367,icb,,,
E,x-fmt/367,vda,,,
E,x-fmt/367,vst,,,
S,x-fmt/367,BOF,0,0,??00(02|0A)0000000000{4}[01:FF][00:3F][01:FF][00:3F](0F|10|18|20)(00|01|08|20|21|28)
S,x-fmt/367,BOF,0,0,??00(02|0A)0000000000{4}[01:FF][00:3F]00[01:3F](0F|10|18|20)(00|01|08|20|21|28)
S,x-fmt/367,BOF,0,0,??00(02|0A)0000000000{4}00[01:3F][01:FF][00:3F](0F|10|18|20)(00|01|08|20|21|28)
S,x-fmt/367,BOF,0,0,??00(02|0A)0000000000{4}00[01:3F]00[01:3F](0F|10|18|20)(00|01|08|20|21|28)
S,x-fmt/367,BOF,0,0,??00(03|0B)0000000000{4}[01:FF][00:3F][01:FF][00:3F](08|10)(00|08|20|28)
S,x-fmt/367,BOF,0,0,??00(03|0B)0000000000{4}[01:FF][00:3F]00[01:3F](08|10)(00|08|20|28)
S,x-fmt/367,BOF,0,0,??00(03|0B)0000000000{4}00[01:3F][01:FF][00:3F](08|10)(00|08|20|28)
S,x-fmt/367,BOF,0,0,??00(03|0B)0000000000{4}00[01:3F]00[01:3F](08|10)(00|08|20|28)
S,x-fmt/367,BOF,0,0,??01(01|09)0000??(00|01)(0F|10|18|20){4}[01:FF][00:3F][01:FF][00:3F]08(00|20)
S,x-fmt/367,BOF,0,0,??01(01|09)0000??(00|01)(0F|10|18|20){4}[01:FF][00:3F]00[01:3F]08(00|20)
S,x-fmt/367,BOF,0,0,??01(01|09)0000??(00|01)(0F|10|18|20){4}00[01:3F][01:FF][00:3F]08(00|20)
S,x-fmt/367,BOF,0,0,??01(01|09)0000??(00|01)(0F|10|18|20){4}00[01:3F]00[01:3F]08(00|20)
F,fmt/402,Truevision TGA,2.0,image/x-tga,
E,fmt/402,tga,,,
E,fmt/402,icb,,,
E,fmt/402,vda,,,
E,fmt/402,vst,,,
S,fmt/402,EOF,0,0,54525545564953494F4E2D5846494C452E00
F,fmt/193,Digital Moving Picture Exchange,1.0,image/x-dpx,
E,fmt/193,dpx,,,
S,fmt/193,BOF,0,0,(53445058|58504453){4}56312E30
F,fmt/541,Digital Moving Picture Exchange,2.0,image/x-dpx,
E,fmt/541,dpx,,,
S,fmt/541,BOF,0,0,(53445058|58504453){4}56322E30
F,movkrin/pbm,Portable Bitmap,,image/x-portable-bitmap,
E,movkrin/pbm,pbm,,,
S,movkrin/pbm,BOF,0,0,50(31|34)(0A|0D0A|20|09)(23|30|31|32|33|34|35|36|37|38|39)
F,movkrin/pgm,Portable Graymap,,image/x-portable-graymap,
E,movkrin/pgm,pgm,,,
S,movkrin/pgm,BOF,0,0,50(32|35)(0A|0D0A|20|09)(23|30|31|32|33|34|35|36|37|38|39)
F,movkrin/ppm,Portable Pixmap,,image/x-portable-pixmap,
E,movkrin/ppm,ppm,,,
S,movkrin/ppm,BOF,0,0,50(33|36)(0A|0D0A|20|09)(23|30|31|32|33|34|35|36|37|38|39)
F,movkrin/xpm,X PixMap,3,image/x-xpixmap,
E,movkrin/xpm,xpm,,,
S,movkrin/xpm,BOF,0,0,2F2A2058504D202A2F
F,movkrin/ilbm,IFF interleaved bitmap,,image/x-ilbm,
E,movkrin/ilbm,iff,,,
E,movkrin/ilbm,lbm,,,
E,movkrin/ilbm,ilbm,,,
S,movkrin/ilbm,BOF,0,0,464F524D{4}494C424D
F,fmt/255,DjVu,,image/vnd.djvu,
E,fmt/255,djvu,,,
E,fmt/255,djv,,,
S,fmt/255,BOF,0,0,41542654464F524D{4}444A56(55|4D)
F,fmt/574,Digital Imaging and Communications in Medicine,,application/dicom,
E,fmt/574,dcm,,,
E,fmt/574,dic,,,
S,fmt/574,BOF,128,128,4449434D0200
F,x-fmt/383,Flexible Image Transport System,,image/fits,
E,x-fmt/383,fits,,,
E,x-fmt/383,fit,,,
E,x-fmt/383,fts,,,
S,x-fmt/383,BOF,0,0,53494D504C4520203D202020202020202020202020202020202020202054
F,movkrin/heic,\"High Efficiency Image File, HEVC\",,image/heic,
E,movkrin/heic,heic,,,
E,movkrin/heic,heif,,,
S,movkrin/heic,BOF,0,0,0000????66747970(68656963|68656978|6865696D|68656973)
F,movkrin/heif,High Efficiency Image File,,image/heif,
E,movkrin/heif,heif,,,
E,movkrin/heif,heic,,,
E,movkrin/heif,hif,,,
E,movkrin/heif,avif,,,
S,movkrin/heif,BOF,0,0,0000????667479706D696631
F,movkrin/avif,AV1 Image File,,image/avif,
E,movkrin/avif,avif,,,
S,movkrin/avif,BOF,0,0,0000????66747970617669(66|73)
F,x-fmt/119,Windows Metafile,,image/wmf,
E,x-fmt/119,wmf,,,
S,x-fmt/119,BOF,0,0,D7CDC69A0000
S,x-fmt/119,BOF,0,0,(0100|0200)0900(0001|0003)
F,movkrin/emf,Enhanced Metafile,,image/emf,
E,movkrin/emf,emf,,,
S,movkrin/emf,BOF,0,0,01000000{36}20454D46
F,fmt/14,Portable Document Format,1.0,application/pdf,
E,fmt/14,pdf,,,
S,fmt/14,BOF,0,0,255044462D312E30
F,fmt/15,Portable Document Format,1.1,application/pdf,
E,fmt/15,pdf,,,
S,fmt/15,BOF,0,0,255044462D312E31
F,fmt/16,Portable Document Format,1.2,application/pdf,
E,fmt/16,pdf,,,
S,fmt/16,BOF,0,0,255044462D312E32
F,fmt/17,Portable Document Format,1.3,application/pdf,
E,fmt/17,pdf,,,
S,fmt/17,BOF,0,0,255044462D312E33
F,fmt/18,Portable Document Format,1.4,application/pdf,
E,fmt/18,pdf,,,
S,fmt/18,BOF,0,0,255044462D312E34
F,fmt/19,Portable Document Format,1.5,application/pdf,
E,fmt/19,pdf,,,
S,fmt/19,BOF,0,0,255044462D312E35
F,fmt/20,Portable Document Format,1.6,application/pdf,
E,fmt/20,pdf,,,
S,fmt/20,BOF,0,0,255044462D312E36
F,fmt/276,Portable Document Format,1.7,application/pdf,
E,fmt/276,pdf,,,
S,fmt/276,BOF,0,0,255044462D312E37
F,fmt/1129,Portable Document Format,2.0,application/pdf,
E,fmt/1129,pdf,,,
S,fmt/1129,BOF,0,0,255044462D322E30
F,fmt/95,Portable Document Format for archives (PDF/A),1a,application/pdf,
E,fmt/95,pdf,,,
S,fmt/95,BOF,0,0,255044462D312E
B,fmt/95,BOF,0,65535,7064666169643A70617274(3E|3D22|3D27)31
B,fmt/95,BOF,0,65535,7064666169643A636F6E666F726D616E6365(3E|3D22|3D27)41
S,fmt/95,BOF,0,0,255044462D312E
B,fmt/95,EOF,0,65535,7064666169643A70617274(3E|3D22|3D27)31
B,fmt/95,EOF,0,65535,7064666169643A636F6E666F726D616E6365(3E|3D22|3D27)41
F,fmt/354,Portable Document Format for archives (PDF/A),1b,application/pdf,
E,fmt/354,pdf,,,
S,fmt/354,BOF,0,0,255044462D312E
B,fmt/354,BOF,0,65535,7064666169643A70617274(3E|3D22|3D27)31
B,fmt/354,BOF,0,65535,7064666169643A636F6E666F726D616E6365(3E|3D22|3D27)42
S,fmt/354,BOF,0,0,255044462D312E
B,fmt/354,EOF,0,65535,7064666169643A70617274(3E|3D22|3D27)31
B,fmt/354,EOF,0,65535,7064666169643A636F6E666F726D616E6365(3E|3D22|3D27)42
F,fmt/476,Portable Document Format for archives (PDF/A),2a,application/pdf,
E,fmt/476,pdf,,,
S,fmt/476,BOF,0,0,255044462D312E
B,fmt/476,BOF,0,65535,7064666169643A70617274(3E|3D22|3D27)32
B,fmt/476,BOF,0,65535,7064666169643A636F6E666F726D616E6365(3E|3D22|3D27)41
S,fmt/476,BOF,0,0,255044462D312E
B,fmt/476,EOF,0,65535,7064666169643A70617274(3E|3D22|3D27)32
B,fmt/476,EOF,0,65535,7064666169643A636F6E666F726D616E6365(3E|3D22|3D27)41
F,fmt/477,Portable Document Format for archives (PDF/A),2b,application/pdf,
E,fmt/477,pdf,,,
S,fmt/477,BOF,0,0,255044462D312E
B,fmt/477,BOF,0,65535,7064666169643A70617274(3E|3D22|3D27)32
B,fmt/477,BOF,0,65535,7064666169643A636F6E666F726D616E6365(3E|3D22|3D27)42
S,fmt/477,BOF,0,0,255044462D312E
B,fmt/477,EOF,0,65535,7064666169643A70617274(3E|3D22|3D27)32
B,fmt/477,EOF,0,65535,7064666169643A636F6E666F726D616E6365(3E|3D22|3D27)42
F,fmt/478,Portable Document Format for archives (PDF/A),2u,application/pdf,
E,fmt/478,pdf,,,
S,fmt/478,BOF,0,0,255044462D312E
B,fmt/478,BOF,0,65535,7064666169643A70617274(3E|3D22|3D27)32
B,fmt/478,BOF,0,65535,7064666169643A636F6E666F726D616E6365(3E|3D22|3D27)55
S,fmt/478,BOF,0,0,255044462D312E
B,fmt/478,EOF,0,65535,7064666169643A70617274(3E|3D22|3D27)32
B,fmt/478,EOF,0,65535,7064666169643A636F6E666F726D616E6365(3E|3D22|3D27)55
F,fmt/479,Portable Document Format for archives (PDF/A),3a,application/pdf,
E,fmt/479,pdf,,,
S,fmt/479,BOF,0,0,255044462D312E
B,fmt/479,BOF,0,65535,7064666169643A70617274(3E|3D22|3D27)33
B,fmt/479,BOF,0,65535,7064666169643A636F6E666F726D616E6365(3E|3D22|3D27)41
S,fmt/479,BOF,0,0,255044462D312E
B,fmt/479,EOF,0,65535,7064666169643A70617274(3E|3D22|3D27)33
B,fmt/479,EOF,0,65535,7064666169643A636F6E666F726D616E6365(3E|3D22|3D27)41
F,fmt/480,Portable Document Format for archives (PDF/A),3b,application/pdf,
E,fmt/480,pdf,,,
S,fmt/480,BOF,0,0,255044462D312E
B,fmt/480,BOF,0,65535,7064666169643A70617274(3E|3D22|3D27)33
B,fmt/480,BOF,0,65535,7064666169643A636F6E666F726D616E6365(3E|3D22|3D27)42
S,fmt/480,BOF,0,0,255044462D312E
B,fmt/480,EOF,0,65535,7064666169643A70617274(3E|3D22|3D27)33
B,fmt/480,EOF,0,65535,7064666169643A636F6E666F726D616E6365(3E|3D22|3D27)42
F,fmt/481,Portable Document Format for archives (PDF/A),3u,application/pdf,
E,fmt/481,pdf,,,
S,fmt/481,BOF,0,0,255044462D312E
B,fmt/481,BOF,0,65535,7064666169643A70617274(3E|3D22|3D27)33
B,fmt/481,BOF,0,65535,7064666169643A636F6E666F726D616E6365(3E|3D22|3D27)55
S,fmt/481,BOF,0,0,255044462D312E
B,fmt/481,EOF,0,65535,7064666169643A70617274(3E|3D22|3D27)33
B,fmt/481,EOF,0,65535,7064666169643A636F6E666F726D616E6365(3E|3D22|3D27)55
F,movkrin/pdfa-4,Portable Document Format for archives (PDF/A),4,application/pdf,
E,movkrin/pdfa-4,pdf,,,
S,movkrin/pdfa-4,BOF,0,0,255044462D322E30
B,movkrin/pdfa-4,BOF,0,65535,7064666169643A70617274(3E|3D22|3D27)34
S,movkrin/pdfa-4,BOF,0,0,255044462D322E30
B,movkrin/pdfa-4,EOF,0,65535,7064666169643A70617274(3E|3D22|3D27)34
F,movkrin/postscript,PostScript,,application/postscript,
E,movkrin/postscript,ps,,,
E,movkrin/postscript,ai,,,
S,movkrin/postscript,BOF,0,0,25215053
S,movkrin/postscript,BOF,0,0,0425215053
S,movkrin/postscript,BOF,0,0,2521(0A|0D)
B,movkrin/postscript,BOF,3,65535,(73686F7770616765|6D6F7665746F|66696E64666F6E74|62696E6420646566)
F,movkrin/eps,Encapsulated PostScript,,application/postscript,
E,movkrin/eps,eps,,,
E,movkrin/eps,epsf,,,
E,movkrin/eps,epsi,,,
S,movkrin/eps,BOF,0,0,252150532D41646F62652D[31:33]2E[30:39]20455053462D
F,fmt/122,Encapsulated PostScript,1.2,application/postscript,
E,fmt/122,eps,,,
E,fmt/122,epsf,,,
E,fmt/122,epsi,,,
S,fmt/122,BOF,0,0,252150532D41646F62652D322E3020455053462D312E32
F,fmt/123,Encapsulated PostScript,2.0,application/postscript,
E,fmt/123,eps,,,
E,fmt/123,epsf,,,
E,fmt/123,epsi,,,
S,fmt/123,BOF,0,0,252150532D41646F62652D322E3020455053462D322E30
F,fmt/124,Encapsulated PostScript,3.0,application/postscript,
E,fmt/124,eps,,,
E,fmt/124,epsf,,,
E,fmt/124,epsi,,,
S,fmt/124,BOF,0,0,252150532D41646F62652D332E3020455053462D332E30
F,movkrin/eps-dos,Encapsulated PostScript with a binary header,,image/x-eps,
E,movkrin/eps-dos,eps,,,
E,movkrin/eps-dos,epsf,,,
S,movkrin/eps-dos,BOF,0,0,C5D0D3C6
F,movkrin/dvi,Device independent file of TeX,2,application/x-dvi,
E,movkrin/dvi,dvi,,,
S,movkrin/dvi,BOF,0,0,F702018392C01C3B0000
F,movkrin/rtf,Rich Text Format,,text/rtf,
E,movkrin/rtf,rtf,,,
E,movkrin/rtf,doc,,,
S,movkrin/rtf,BOF,0,0,7B5C72746631
F,fmt/111,OLE2 Compound Document Format,,application/x-ole-storage,
E,fmt/111,doc,,,
E,fmt/111,dot,,,
E,fmt/111,xls,,,
E,fmt/111,xlt,,,
E,fmt/111,xla,,,
E,fmt/111,ppt,,,
E,fmt/111,pot,,,
E,fmt/111,pps,,,
E,fmt/111,msg,,,
E,fmt/111,msi,,,
E,fmt/111,msp,,,
E,fmt/111,vsd,,,
E,fmt/111,pub,,,
E,fmt/111,mpp,,,
E,fmt/111,db,,,
E,fmt/111,wps,,,
S,fmt/111,BOF,0,0,D0CF11E0A1B11AE1{18}(0300|0400)FEFF
F,fmt/39,Microsoft Word Document,6.0/95,application/msword,
E,fmt/39,doc,,,
E,fmt/39,dot,,,
S,fmt/39,BOF,0,0,D0CF11E0A1B11AE1
B,fmt/39,BOF,512,65535,DCA5(65|66|67|68|69)00{8}(65|66|67|68|69)00
B,fmt/39,BOF,512,65535,5200{62}(1600|0200)05(00|01){12}(0009020000000000C000000000000046|0609020000000000C000000000000046|00000000000000000000000000000000)*57006F007200640044006F00630075006D0065006E007400{40}1A0002(00|01)
S,fmt/39,BOF,0,0,D0CF11E0A1B11AE1
B,fmt/39,BOF,512,65535,DCA5(65|66|67|68|69)00{8}(65|66|67|68|69)00
B,fmt/39,EOF,0,65535,5200{62}(1600|0200)05(00|01){12}(0009020000000000C000000000000046|0609020000000000C000000000000046|00000000000000000000000000000000)*57006F007200640044006F00630075006D0065006E007400{40}1A0002(00|01)
F,fmt/40,Microsoft Word Document,97-2003,application/msword,
E,fmt/40,doc,,,
E,fmt/40,dot,,,
S,fmt/40,BOF,0,0,D0CF11E0A1B11AE1
B,fmt/40,BOF,512,65535,5200{62}(1600|0200)05(00|01){12}(0609020000000000C000000000000046|0009020000000000C000000000000046|00000000000000000000000000000000)*57006F007200640044006F00630075006D0065006E007400{40}1A0002(00|01)
S,fmt/40,BOF,0,0,D0CF11E0A1B11AE1
B,fmt/40,EOF,0,65535,5200{62}(1600|0200)05(00|01){12}(0609020000000000C000000000000046|0009020000000000C000000000000046|00000000000000000000000000000000)*57006F007200640044006F00630075006D0065006E007400{40}1A0002(00|01)
F,fmt/59,Microsoft Excel Workbook,5.0/95,application/vnd.ms-excel,
E,fmt/59,xls,,,
E,fmt/59,xlt,,,
E,fmt/59,xla,,,
S,fmt/59,BOF,0,0,D0CF11E0A1B11AE1
B,fmt/59,BOF,512,65535,5200{62}(1600|0200)05(00|01){12}(1008020000000000C000000000000046|1108020000000000C000000000000046|2008020000000000C000000000000046|00000000000000000000000000000000)*42006F006F006B00{56}0A0002(00|01)
S,fmt/59,BOF,0,0,D0CF11E0A1B11AE1
B,fmt/59,EOF,0,65535,5200{62}(1600|0200)05(00|01){12}(1008020000000000C000000000000046|1108020000000000C000000000000046|2008020000000000C000000000000046|00000000000000000000000000000000)*42006F006F006B00{56}0A0002(00|01)
F,movkrin/xls,Microsoft Excel Workbook,97-2003,application/vnd.ms-excel,
E,movkrin/xls,xls,,,
E,movkrin/xls,xlt,,,
E,movkrin/xls,xla,,,
S,movkrin/xls,BOF,0,0,D0CF11E0A1B11AE1
B,movkrin/xls,BOF,512,65535,5200{62}(1600|0200)05(00|01){12}(2008020000000000C000000000000046|2108020000000000C000000000000046|1008020000000000C000000000000046|1108020000000000C000000000000046|00000000000000000000000000000000)*57006F0072006B0062006F006F006B00{48}120002(00|01)
S,movkrin/xls,BOF,0,0,D0CF11E0A1B11AE1
B,movkrin/xls,EOF,0,65535,5200{62}(1600|0200)05(00|01){12}(2008020000000000C000000000000046|2108020000000000C000000000000046|1008020000000000C000000000000046|1108020000000000C000000000000046|00000000000000000000000000000000)*57006F0072006B0062006F006F006B00{48}120002(00|01)
F,fmt/126,Microsoft PowerPoint Presentation,97-2003,application/vnd.ms-powerpoint,
E,fmt/126,ppt,,,
E,fmt/126,pot,,,
E,fmt/126,pps,,,
E,fmt/126,ppa,,,
S,fmt/126,BOF,0,0,D0CF11E0A1B11AE1
B,fmt/126,BOF,512,65535,5200{62}(1600|0200)05(00|01){12}(108D81649B4FCF1186EA00AA00B929E8|70AE7BEA3BFBCD11A90300AA00510EA3|00000000000000000000000000000000)*50006F0077006500720050006F0069006E007400200044006F00630075006D0065006E007400{26}280002(00|01)
S,fmt/126,BOF,0,0,D0CF11E0A1B11AE1
B,fmt/126,EOF,0,65535,5200{62}(1600|0200)05(00|01){12}(108D81649B4FCF1186EA00AA00B929E8|70AE7BEA3BFBCD11A90300AA00510EA3|00000000000000000000000000000000)*50006F0077006500720050006F0069006E007400200044006F00630075006D0065006E007400{26}280002(00|01)
F,x-fmt/430,Microsoft Outlook Email Message,97-2003,application/vnd.ms-outlook,
E,x-fmt/430,msg,,,
S,x-fmt/430,BOF,0,0,D0CF11E0A1B11AE1
B,x-fmt/430,BOF,512,65535,5200{62}(1600|0200)05(00|01){12}(0B0D020000000000C000000000000046|00000000000000000000000000000000)*5F005F00700072006F0070006500720074006900650073005F00760065007200730069006F006E0031002E003000{18}300002(00|01)
S,x-fmt/430,BOF,0,0,D0CF11E0A1B11AE1
B,x-fmt/430,EOF,0,65535,5200{62}(1600|0200)05(00|01){12}(0B0D020000000000C000000000000046|00000000000000000000000000000000)*5F005F00700072006F0070006500720074006900650073005F00760065007200730069006F006E0031002E003000{18}300002(00|01)
F,movkrin/pub,Microsoft Publisher,,application/x-mspublisher,
E,movkrin/pub,pub,,,
S,movkrin/pub,BOF,0,0,D0CF11E0A1B11AE1
B,movkrin/pub,BOF,512,65535,5200{62}(1600|0200)05(00|01)*5100750069006C006C00530075006200{48}120001(00|01)
S,movkrin/pub,BOF,0,0,D0CF11E0A1B11AE1
B,movkrin/pub,EOF,0,65535,5200{62}(1600|0200)05(00|01)*5100750069006C006C00530075006200{48}120001(00|01)
F,movkrin/vsd,Microsoft Visio Drawing,,application/vnd.visio,
E,movkrin/vsd,vsd,,,
E,movkrin/vsd,vst,,,
E,movkrin/vsd,vss,,,
S,movkrin/vsd,BOF,0,0,D0CF11E0A1B11AE1
B,movkrin/vsd,BOF,512,65535,5200{62}(1600|0200)05(00|01){12}(131A020000000000C000000000000046|141A020000000000C000000000000046|00000000000000000000000000000000)*56006900730069006F0044006F00630075006D0065006E007400{38}1C0002(00|01)
S,movkrin/vsd,BOF,0,0,D0CF11E0A1B11AE1
B,movkrin/vsd,EOF,0,65535,5200{62}(1600|0200)05(00|01){12}(131A020000000000C000000000000046|141A020000000000C000000000000046|00000000000000000000000000000000)*56006900730069006F0044006F00630075006D0065006E007400{38}1C0002(00|01)
F,x-fmt/248,Microsoft Outlook Personal Folders (ANSI),97-2002,application/vnd.ms-outlook,
E,x-fmt/248,pst,,,
E,x-fmt/248,ost,,,
S,x-fmt/248,BOF,0,0,2142444E{4}534D(0E|0F)00
F,x-fmt/249,Microsoft Outlook Personal Folders (Unicode),2003-2007,application/vnd.ms-outlook,
E,x-fmt/249,pst,,,
E,x-fmt/249,ost,,,
S,x-fmt/249,BOF,0,0,2142444E{4}534D[17:24]00
F,movkrin/onenote,OneNote section,,application/onenote,
E,movkrin/onenote,one,,,
S,movkrin/onenote,BOF,0,0,E4525C7B8CD8A74DAEB15378D02996D3
F,fmt/412,\"Microsoft Word, Office Open XML\",,application/vnd.openxmlformats-officedocument.wordprocessingml.document,
E,fmt/412,docx,,,
E,fmt/412,dotx,,,
S,fmt/412,BOF,0,0,504B0304
B,fmt/412,EOF,22,65535,504B0102{24}1300{16}5B436F6E74656E745F54797065735D2E786D6C
B,fmt/412,EOF,22,65535,504B0102{24}1100{16}776F72642F646F63756D656E742E786D6C
S,fmt/412,BOF,0,0,504B0304{22}1300{2}5B436F6E74656E745F54797065735D2E786D6C
B,fmt/412,BOF,0,65535,504B0304{22}1100{2}776F72642F646F63756D656E742E786D6C
F,fmt/214,\"Microsoft Excel, Office Open XML\",,application/vnd.openxmlformats-officedocument.spreadsheetml.sheet,
E,fmt/214,xlsx,,,
E,fmt/214,xltx,,,
S,fmt/214,BOF,0,0,504B0304
B,fmt/214,EOF,22,65535,504B0102{24}1300{16}5B436F6E74656E745F54797065735D2E786D6C
B,fmt/214,EOF,22,65535,504B0102{24}0F00{16}786C2F776F726B626F6F6B2E786D6C
S,fmt/214,BOF,0,0,504B0304{22}1300{2}5B436F6E74656E745F54797065735D2E786D6C
B,fmt/214,BOF,0,65535,504B0304{22}0F00{2}786C2F776F726B626F6F6B2E786D6C
F,fmt/215,\"Microsoft PowerPoint, Office Open XML\",,application/vnd.openxmlformats-officedocument.presentationml.presentation,
E,fmt/215,pptx,,,
E,fmt/215,potx,,,
E,fmt/215,ppsx,,,
S,fmt/215,BOF,0,0,504B0304
B,fmt/215,EOF,22,65535,504B0102{24}1300{16}5B436F6E74656E745F54797065735D2E786D6C
B,fmt/215,EOF,22,65535,504B0102{24}1400{16}7070742F70726573656E746174696F6E2E786D6C
S,fmt/215,BOF,0,0,504B0304{22}1300{2}5B436F6E74656E745F54797065735D2E786D6C
B,fmt/215,BOF,0,65535,504B0304{22}1400{2}7070742F70726573656E746174696F6E2E786D6C
F,fmt/523,\"Microsoft Word with macros, Office Open XML\",,application/vnd.ms-word.document.macroEnabled.12,
E,fmt/523,docm,,,
E,fmt/523,dotm,,,
S,fmt/523,BOF,0,0,504B0304
B,fmt/523,EOF,22,65535,504B0102{24}1300{16}5B436F6E74656E745F54797065735D2E786D6C
B,fmt/523,EOF,22,65535,504B0102{24}1300{16}776F72642F76626150726F6A6563742E62696E
F,fmt/445,\"Microsoft Excel with macros, Office Open XML\",,application/vnd.ms-excel.sheet.macroEnabled.12,
E,fmt/445,xlsm,,,
E,fmt/445,xltm,,,
E,fmt/445,xlam,,,
S,fmt/445,BOF,0,0,504B0304
B,fmt/445,EOF,22,65535,504B0102{24}1300{16}5B436F6E74656E745F54797065735D2E786D6C
B,fmt/445,EOF,22,65535,504B0102{24}1100{16}786C2F76626150726F6A6563742E62696E
F,fmt/487,\"Microsoft PowerPoint with macros, Office Open XML\",,application/vnd.ms-powerpoint.presentation.macroEnabled.12,
E,fmt/487,pptm,,,
E,fmt/487,potm,,,
E,fmt/487,ppsm,,,
S,fmt/487,BOF,0,0,504B0304
B,fmt/487,EOF,22,65535,504B0102{24}1300{16}5B436F6E74656E745F54797065735D2E786D6C
B,fmt/487,EOF,22,65535,504B0102{24}1200{16}7070742F76626150726F6A6563742E62696E
F,fmt/595,\"Microsoft Excel, binary workbook\",,application/vnd.ms-excel.sheet.binary.macroEnabled.12,
E,fmt/595,xlsb,,,
S,fmt/595,BOF,0,0,504B0304
B,fmt/595,EOF,22,65535,504B0102{24}1300{16}5B436F6E74656E745F54797065735D2E786D6C
B,fmt/595,EOF,22,65535,504B0102{24}0F00{16}786C2F776F726B626F6F6B2E62696E
F,movkrin/odt,OpenDocument text,,application/vnd.oasis.opendocument.text,
E,movkrin/odt,odt,,,
S,movkrin/odt,BOF,0,0,504B0304{22}080000006D696D65747970656170706C69636174696F6E2F766E642E6F617369732E6F70656E646F63756D656E742E74657874504B
F,movkrin/ott,OpenDocument text template,,application/vnd.oasis.opendocument.text-template,
E,movkrin/ott,ott,,,
S,movkrin/ott,BOF,0,0,504B0304{22}080000006D696D65747970656170706C69636174696F6E2F766E642E6F617369732E6F70656E646F63756D656E742E746578742D74656D706C617465504B
F,movkrin/odm,OpenDocument master document,,application/vnd.oasis.opendocument.text-master,
E,movkrin/odm,odm,,,
S,movkrin/odm,BOF,0,0,504B0304{22}080000006D696D65747970656170706C69636174696F6E2F766E642E6F617369732E6F70656E646F63756D656E742E746578742D6D6173746572504B
F,movkrin/oth,OpenDocument text for HTML pages,,application/vnd.oasis.opendocument.text-web,
E,movkrin/oth,oth,,,
S,movkrin/oth,BOF,0,0,504B0304{22}080000006D696D65747970656170706C69636174696F6E2F766E642E6F617369732E6F70656E646F63756D656E742E746578742D776562504B
F,movkrin/ods,OpenDocument spreadsheet,,application/vnd.oasis.opendocument.spreadsheet,
E,movkrin/ods,ods,,,
S,movkrin/ods,BOF,0,0,504B0304{22}080000006D696D65747970656170706C69636174696F6E2F766E642E6F617369732E6F70656E646F63756D656E742E7370726561647368656574504B
F,movkrin/ots,OpenDocument spreadsheet template,,application/vnd.oasis.opendocument.spreadsheet-template,
E,movkrin/ots,ots,,,
S,movkrin/ots,BOF,0,0,504B0304{22}080000006D696D65747970656170706C69636174696F6E2F766E642E6F617369732E6F70656E646F63756D656E742E73707265616473686565742D74656D706C617465504B
F,movkrin/odp,OpenDocument presentation,,application/vnd.oasis.opendocument.presentation,
E,movkrin/odp,odp,,,
S,movkrin/odp,BOF,0,0,504B0304{22}080000006D696D65747970656170706C69636174696F6E2F766E642E6F617369732E6F70656E646F63756D656E742E70726573656E746174696F6E504B
F,movkrin/otp,OpenDocument presentation template,,application/vnd.oasis.opendocument.presentation-template,
E,movkrin/otp,otp,,,
S,movkrin/otp,BOF,0,0,504B0304{22}080000006D696D65747970656170706C69636174696F6E2F766E642E6F617369732E6F70656E646F63756D656E742E70726573656E746174696F6E2D74656D706C617465504B
F,movkrin/odg,OpenDocument drawing,,application/vnd.oasis.opendocument.graphics,
E,movkrin/odg,odg,,,
S,movkrin/odg,BOF,0,0,504B0304{22}080000006D696D65747970656170706C69636174696F6E2F766E642E6F617369732E6F70656E646F63756D656E742E6772617068696373504B
F,movkrin/otg,OpenDocument drawing template,,application/vnd.oasis.opendocument.graphics-template,
E,movkrin/otg,otg,,,
S,movkrin/otg,BOF,0,0,504B0304{22}080000006D696D65747970656170706C69636174696F6E2F766E642E6F617369732E6F70656E646F63756D656E742E67726170686963732D74656D706C617465504B
F,movkrin/odf,OpenDocument formula,,application/vnd.oasis.opendocument.formula,
E,movkrin/odf,odf,,,
S,movkrin/odf,BOF,0,0,504B0304{22}080000006D696D65747970656170706C69636174696F6E2F766E642E6F617369732E6F70656E646F63756D656E742E666F726D756C61504B
F,movkrin/odc,OpenDocument chart,,application/vnd.oasis.opendocument.chart,
E,movkrin/odc,odc,,,
S,movkrin/odc,BOF,0,0,504B0304{22}080000006D696D65747970656170706C69636174696F6E2F766E642E6F617369732E6F70656E646F63756D656E742E6368617274504B
F,movkrin/odb,OpenDocument database,,application/vnd.oasis.opendocument.base,
E,movkrin/odb,odb,,,
S,movkrin/odb,BOF,0,0,504B0304{22}080000006D696D65747970656170706C69636174696F6E2F766E642E6F617369732E6F70656E646F63756D656E742E62617365504B
F,fmt/483,EPUB,,application/epub+zip,
E,fmt/483,epub,,,
S,fmt/483,BOF,0,0,504B0304{22}080000006D696D65747970656170706C69636174696F6E2F657075622B7A6970
F,movkrin/key-09,Apple Keynote,2 to 5,application/vnd.apple.keynote,
E,movkrin/key-09,key,,,
S,movkrin/key-09,BOF,0,0,504B0304
B,movkrin/key-09,EOF,22,65535,504B0102{24}0A00{16}696E6465782E6170786C
S,movkrin/key-09,BOF,0,0,504B0304
B,movkrin/key-09,BOF,0,65535,504B0304{22}0A00{2}696E6465782E6170786C
F,movkrin/iwork-09,Apple Pages or Numbers,1 to 4,,
E,movkrin/iwork-09,pages,,,
E,movkrin/iwork-09,numbers,,,
S,movkrin/iwork-09,BOF,0,0,504B0304
B,movkrin/iwork-09,EOF,22,65535,504B0102{24}0900{16}696E6465782E786D6C
B,movkrin/iwork-09,EOF,22,65535,504B0102{24}1900{16}6275696C6456657273696F6E486973746F72792E706C697374
S,movkrin/iwork-09,BOF,0,0,504B0304
B,movkrin/iwork-09,BOF,0,65535,504B0304{22}0900{2}696E6465782E786D6C
B,movkrin/iwork-09,BOF,0,65535,504B0304{22}1900{2}6275696C6456657273696F6E486973746F72792E706C697374
F,movkrin/iwork,\"Apple Pages, Numbers or Keynote\",2013,,
E,movkrin/iwork,pages,,,
E,movkrin/iwork,numbers,,,
E,movkrin/iwork,key,,,
S,movkrin/iwork,BOF,0,0,504B0304
B,movkrin/iwork,EOF,22,65535,504B0102{24}1200{16}496E6465782F446F63756D656E742E697761
S,movkrin/iwork,BOF,0,0,504B0304
B,movkrin/iwork,BOF,0,65535,504B0304{22}1200{2}496E6465782F446F63756D656E742E697761
F,x-fmt/263,ZIP,,application/zip,
E,x-fmt/263,zip,,,
S,x-fmt/263,BOF,0,0,504B0304
S,x-fmt/263,BOF,0,0,504B050600000000000000000000000000000000
S,x-fmt/263,BOF,0,0,504B0708504B0304
S,x-fmt/263,BOF,0,0,504B3030504B0304
F,x-fmt/266,GZIP,,application/gzip,
E,x-fmt/266,gz,,,
E,x-fmt/266,tgz,,,
E,x-fmt/266,svgz,,,
E,x-fmt/266,emz,,,
E,x-fmt/266,wmz,,,
S,x-fmt/266,BOF,0,0,1F8B08[00:1F]
F,x-fmt/268,BZIP2,,application/x-bzip2,
E,x-fmt/268,bz2,,,
E,x-fmt/268,tbz2,,,
E,x-fmt/268,tbz,,,
S,x-fmt/268,BOF,0,0,425A68[31:39](314159265359|177245385090)
F,fmt/1098,XZ,,application/x-xz,
E,fmt/1098,xz,,,
E,fmt/1098,txz,,,
S,fmt/1098,BOF,0,0,FD377A585A0000(00|01|04|0A)
F,movkrin/lzip,Lzip,,application/lzip,
E,movkrin/lzip,lz,,,
E,movkrin/lzip,tlz,,,
S,movkrin/lzip,BOF,0,0,4C5A4950(00|01)
F,movkrin/zstd,Zstandard,,application/zstd,
E,movkrin/zstd,zst,,,
E,movkrin/zstd,tzst,,,
S,movkrin/zstd,BOF,0,0,28B52FFD
S,movkrin/zstd,BOF,0,0,[50:5F]2A4D18{4-*}28B52FFD
F,movkrin/lz4,LZ4 frame,,application/x-lz4,
E,movkrin/lz4,lz4,,,
S,movkrin/lz4,BOF,0,0,04224D18[40:7F]
F,fmt/484,7-Zip,,application/x-7z-compressed,
E,fmt/484,7z,,,
S,fmt/484,BOF,0,0,377ABCAF271C00
F,x-fmt/265,Tape Archive,,application/x-tar,
E,x-fmt/265,tar,,,
S,x-fmt/265,BOF,257,257,7573746172003030
S,x-fmt/265,BOF,257,257,7573746172202000
F,movkrin/rar-4,RAR,1.5 to 4,application/vnd.rar,
E,movkrin/rar-4,rar,,,
S,movkrin/rar-4,BOF,0,0,526172211A0700
F,fmt/613,RAR,5,application/vnd.rar,
E,fmt/613,rar,,,
S,fmt/613,BOF,0,0,526172211A070100
F,movkrin/cab,Windows Cabinet,,application/vnd.ms-cab-compressed,
E,movkrin/cab,cab,,,
S,movkrin/cab,BOF,0,0,4D53434600000000
F,fmt/635,cpio,,application/x-cpio,
E,fmt/635,cpio,,,
S,fmt/635,BOF,0,0,3037303730(31|32)
S,fmt/635,BOF,0,0,303730373037
F,movkrin/ar,Unix archive,,application/x-archive,
E,movkrin/ar,a,,,
E,movkrin/ar,ar,,,
E,movkrin/ar,lib,,,
S,movkrin/ar,BOF,0,0,213C617263683E0A
F,movkrin/deb,Debian package,,application/vnd.debian.binary-package,
E,movkrin/deb,deb,,,
E,movkrin/deb,udeb,,,
S,movkrin/deb,BOF,0,0,213C617263683E0A64656269616E2D62696E617279
F,movkrin/rpm,RPM package,,application/x-rpm,
E,movkrin/rpm,rpm,,,
S,movkrin/rpm,BOF,0,0,EDABEEDB(03|04)
F,x-fmt/412,Java archive,,application/java-archive,
E,x-fmt/412,jar,,,
E,x-fmt/412,war,,,
E,x-fmt/412,ear,,,
S,x-fmt/412,BOF,0,0,504B0304
B,x-fmt/412,EOF,22,65535,504B0102{24}1400{16}4D4554412D494E462F4D414E49464553542E4D46
S,x-fmt/412,BOF,0,0,504B0304
B,x-fmt/412,BOF,0,65535,504B0304{22}1400{2}4D4554412D494E462F4D414E49464553542E4D46
F,movkrin/siard,Software Independent Archival of Relational Databases,,,
E,movkrin/siard,siard,,,
S,movkrin/siard,BOF,0,0,504B0304
B,movkrin/siard,EOF,22,65535,504B0102{24}1300{16}6865616465722F6D657461646174612E786D6C
B,movkrin/siard,EOF,22,65535,504B0102{24}1300{16}6865616465722F6D657461646174612E787364
S,movkrin/siard,BOF,0,0,504B0304
B,movkrin/siard,BOF,0,65535,504B0304{22}1300{2}6865616465722F6D657461646174612E786D6C
B,movkrin/siard,BOF,0,65535,504B0304{22}1300{2}6865616465722F6D657461646174612E787364
F,fmt/161,Software Independent Archival of Relational Databases,1.0,,
E,fmt/161,siard,,,
S,fmt/161,BOF,0,0,504B0304
B,fmt/161,BOF,0,65535,504B0304{22}1300{2}6865616465722F6D657461646174612E786D6C*687474703A2F2F7777772E6261722E61646D696E2E63682F786D6C6E732F73696172642F312E302F6D657461646174612E787364
S,fmt/161,BOF,0,0,504B0304
B,fmt/161,EOF,0,65535,504B0304{22}1300{2}6865616465722F6D657461646174612E786D6C*687474703A2F2F7777772E6261722E61646D696E2E63682F786D6C6E732F73696172642F312E302F6D657461646174612E787364
F,movkrin/apk,Android package,,application/vnd.android.package-archive,
E,movkrin/apk,apk,,,
S,movkrin/apk,BOF,0,0,504B0304
B,movkrin/apk,EOF,22,65535,504B0102{24}1300{16}416E64726F69644D616E69666573742E786D6C
S,movkrin/apk,BOF,0,0,504B0304
B,movkrin/apk,BOF,0,65535,504B0304{22}1300{2}416E64726F69644D616E69666573742E786D6C
F,fmt/468,ISO 9660 image,,application/x-iso9660-image,
E,fmt/468,iso,,,
S,fmt/468,BOF,32768,32768,[00:03]434430303101
F,movkrin/git-pack,Git pack,,application/x-git,
E,movkrin/git-pack,pack,,,
S,movkrin/git-pack,BOF,0,0,5041434B000000(02|03)
F,fmt/289,WARC,1.0,application/warc,
E,fmt/289,warc,,,
S,fmt/289,BOF,0,0,574152432F312E300D0A
F,movkrin/warc-1-1,WARC,1.1,application/warc,
E,movkrin/warc-1-1,warc,,,
S,movkrin/warc-1-1,BOF,0,0,574152432F312E310D0A
F,fmt/6,Waveform Audio,,audio/vnd.wave,
E,fmt/6,wav,,,
E,fmt/6,wave,,,
S,fmt/6,BOF,0,0,52494646{4}57415645
F,movkrin/bwf,Broadcast Wave Format,,audio/vnd.wave,
E,movkrin/bwf,wav,,,
E,movkrin/bwf,bwf,,,
S,movkrin/bwf,BOF,0,0,52494646{4}57415645
B,movkrin/bwf,BOF,12,4095,62657874??[02:FF]??00
F,movkrin/rf64,RF64 and BW64,,audio/vnd.wave,
E,movkrin/rf64,wav,,,
E,movkrin/rf64,rf64,,,
E,movkrin/rf64,bw64,,,
S,movkrin/rf64,BOF,0,0,52463634FFFFFFFF57415645
S,movkrin/rf64,BOF,0,0,42573634FFFFFFFF57415645
F,movkrin/aiff,Audio Interchange File Format,,audio/x-aiff,
E,movkrin/aiff,aif,,,
E,movkrin/aiff,aiff,,,
S,movkrin/aiff,BOF,0,0,464F524D{4}41494646
F,movkrin/aifc,\"Audio Interchange File Format, compressed\",,audio/x-aiff,
E,movkrin/aifc,aif,,,
E,movkrin/aifc,aiff,,,
E,movkrin/aifc,aifc,,,
S,movkrin/aifc,BOF,0,0,464F524D{4}41494643
F,x-fmt/139,AU audio,,audio/basic,
E,x-fmt/139,au,,,
E,x-fmt/139,snd,,,
S,x-fmt/139,BOF,0,0,2E736E640000
F,movkrin/caf,Core Audio Format,,audio/x-caf,
E,movkrin/caf,caf,,,
S,movkrin/caf,BOF,0,0,636166660001
F,fmt/279,Free Lossless Audio Codec,,audio/flac,
E,fmt/279,flac,,,
S,fmt/279,BOF,0,0,664C6143(00|80)000022
F,movkrin/wavpack,WavPack,,audio/x-wavpack,
E,movkrin/wavpack,wv,,,
S,movkrin/wavpack,BOF,0,0,7776706B{4}[02:10]04
F,fmt/134,MPEG 1/2 Audio Layer 3,,audio/mpeg,
E,fmt/134,mp3,,,
S,fmt/134,BOF,0,0,494433[02:04]00??[00:7F][00:7F][00:7F][00:7F]
S,fmt/134,BOF,0,0,FF(FA|FB)[10:EB]{93-1438}FF(FA|FB)[10:EB]{93-1438}FF(FA|FB)[10:EB]
S,fmt/134,BOF,0,0,FF(F2|F3)[10:EB]{21-718}FF(F2|F3)[10:EB]{21-718}FF(F2|F3)[10:EB]
F,movkrin/mp2,MPEG 1/2 Audio Layer 2,,audio/mpeg,
E,movkrin/mp2,mp2,,,
E,movkrin/mp2,mpa,,,
E,movkrin/mp2,m2a,,,
S,movkrin/mp2,BOF,0,0,FF(FC|FD)[10:EB]{93-1726}FF(FC|FD)[10:EB]{93-1726}FF(FC|FD)[10:EB]
S,movkrin/mp2,BOF,0,0,FF(F4|F5)[10:EB]{45-1438}FF(F4|F5)[10:EB]{45-1438}FF(F4|F5)[10:EB]
F,movkrin/aac,Advanced Audio Coding,,audio/aac,
E,movkrin/aac,aac,,,
E,movkrin/aac,adts,,,
S,movkrin/aac,BOF,0,0,FFF1[40:73]{4-4605}FFF1[40:73]{4-4605}FFF1[40:73]{4-4605}FFF1[40:73]
S,movkrin/aac,BOF,0,0,FFF9[40:73]{4-4605}FFF9[40:73]{4-4605}FFF9[40:73]{4-4605}FFF9[40:73]
F,movkrin/ac3,Dolby Digital,,audio/ac3,
E,movkrin/ac3,ac3,,,
S,movkrin/ac3,BOF,0,0,0B77????[00:A5][30:57]{122-3834}0B77????[00:A5][30:57]{122-3834}0B77????[00:A5][30:57]
F,movkrin/eac3,Dolby Digital Plus,,audio/eac3,
E,movkrin/eac3,eac3,,,
E,movkrin/eac3,ec3,,,
S,movkrin/eac3,BOF,0,0,0B77[00:07]????[80:87]{26-4090}0B77[00:07]????[80:87]{26-4090}0B77[00:07]????[80:87]
F,fmt/203,Ogg Vorbis,,audio/ogg,
E,fmt/203,ogg,,,
E,fmt/203,oga,,,
S,fmt/203,BOF,0,0,4F67675300[02:07]{22}01766F72626973
F,fmt/946,Ogg Opus,,audio/ogg,
E,fmt/946,opus,,,
E,fmt/946,ogg,,,
E,fmt/946,oga,,,
S,fmt/946,BOF,0,0,4F67675300[02:07]{22}4F70757348656164
F,movkrin/ogg-flac,Ogg FLAC,,audio/ogg,
E,movkrin/ogg-flac,oga,,,
E,movkrin/ogg-flac,ogg,,,
S,movkrin/ogg-flac,BOF,0,0,4F67675300[02:07]{22}7F464C4143
F,movkrin/ogg-speex,Ogg Speex,,audio/ogg,
E,movkrin/ogg-speex,spx,,,
E,movkrin/ogg-speex,ogg,,,
E,movkrin/ogg-speex,oga,,,
S,movkrin/ogg-speex,BOF,0,0,4F67675300[02:07]{22}5370656578202020
F,movkrin/ogg-theora,Ogg Theora,,video/ogg,
E,movkrin/ogg-theora,ogv,,,
E,movkrin/ogg-theora,ogg,,,
S,movkrin/ogg-theora,BOF,0,0,4F67675300[02:07]{22}807468656F7261
F,movkrin/ogg,Ogg,,application/ogg,
E,movkrin/ogg,ogg,,,
E,movkrin/ogg,ogx,,,
E,movkrin/ogg,oga,,,
E,movkrin/ogg,ogv,,,
S,movkrin/ogg,BOF,0,0,4F67675300[00:07]
F,fmt/356,Adaptive Multi-Rate Audio,,audio/AMR,
E,fmt/356,amr,,,
S,fmt/356,BOF,0,0,2321414D520A
F,movkrin/amr-wb,Adaptive Multi-Rate Wideband Audio,,audio/AMR-WB,
E,movkrin/amr-wb,awb,,,
E,movkrin/amr-wb,amr,,,
S,movkrin/amr-wb,BOF,0,0,2321414D522D57420A
F,x-fmt/230,MIDI Audio,,audio/midi,
E,x-fmt/230,mid,,,
E,x-fmt/230,midi,,,
E,x-fmt/230,smf,,,
S,x-fmt/230,BOF,0,0,4D5468640000000600[00:02]
F,fmt/199,MPEG-4 Media File,,video/mp4,
E,fmt/199,mp4,,,
E,fmt/199,m4v,,,
E,fmt/199,mp4v,,,
S,fmt/199,BOF,0,0,0000????66747970(69736F6D|69736F32|69736F33|69736F34|69736F35|69736F36|69736F37|69736F38|69736F39|6D703431|6D703432|61766331|64617368|4D345620)
F,movkrin/m4a,MPEG-4 audio,,audio/mp4,
E,movkrin/m4a,m4a,,,
E,movkrin/m4a,m4b,,,
E,movkrin/m4a,m4p,,,
S,movkrin/m4a,BOF,0,0,0000????667479704D34(41|42|50)20
F,fmt/357,3GPP multimedia,,video/3gpp,
E,fmt/357,3gp,,,
E,fmt/357,3gpp,,,
S,fmt/357,BOF,0,0,0000????667479703367(65|67|68|70|72|73)[34:39]
F,movkrin/3g2,3GPP2 multimedia,,video/3gpp2,
E,movkrin/3g2,3g2,,,
E,movkrin/3g2,3gpp2,,,
S,movkrin/3g2,BOF,0,0,0000????66747970336732[61:63]
F,x-fmt/384,QuickTime,,video/quicktime,
E,x-fmt/384,mov,,,
E,x-fmt/384,qt,,,
S,x-fmt/384,BOF,0,0,0000????6674797071742020
S,x-fmt/384,BOF,0,0,00??????6D6F6F76
S,x-fmt/384,BOF,0,0,00??????6D646174
S,x-fmt/384,BOF,0,0,0000000877696465{4}6D646174
F,fmt/569,Matroska,,video/matroska,
E,fmt/569,mkv,,,
E,fmt/569,mka,,,
E,fmt/569,mks,,,
E,fmt/569,mk3d,,,
S,fmt/569,BOF,0,0,1A45DFA3{1-64}4282(88|4008|0100000000000008)6D6174726F736B61
F,fmt/573,WebM,,video/webm,
E,fmt/573,webm,,,
S,fmt/573,BOF,0,0,1A45DFA3{1-64}4282(84|4004|0100000000000004)7765626D
F,fmt/5,Audio/Video Interleaved,,video/vnd.avi,
E,fmt/5,avi,,,
S,fmt/5,BOF,0,0,52494646{4}41564920
F,fmt/131,Advanced Systems Format,,video/x-ms-asf,
E,fmt/131,asf,,,
E,fmt/131,wma,,,
E,fmt/131,wmv,,,
S,fmt/131,BOF,0,0,3026B2758E66CF11A6D900AA0062CE6C
F,fmt/132,Windows Media Audio,,audio/x-ms-wma,
E,fmt/132,wma,,,
S,fmt/132,BOF,0,0,3026B2758E66CF11A6D900AA0062CE6C*9107DCB7B7A9CF118EE600C00C205365{8}409E69F84D5BCF11A8FD00805F5C442B{38}(6001|6101|6201|6301)
F,fmt/133,Windows Media Video,,video/x-ms-wmv,
E,fmt/133,wmv,,,
S,fmt/133,BOF,0,0,3026B2758E66CF11A6D900AA0062CE6C*9107DCB7B7A9CF118EE600C00C205365{8}C0EF19BC4D5BCF11A8FD00805F5C442B{65}(574D5631|574D5632|574D5633|574D5641|57564331)
F,x-fmt/382,Flash Video,,video/x-flv,
E,x-fmt/382,flv,,,
S,x-fmt/382,BOF,0,0,464C5601(01|04|05)00000009
F,movkrin/swf,Flash movie,,application/vnd.adobe.flash.movie,
E,movkrin/swf,swf,,,
S,movkrin/swf,BOF,0,0,(46|43|5A)5753[01:33]{3}[00:07]
F,x-fmt/386,MPEG-2 Program Stream,,video/mpeg,
E,x-fmt/386,mpg,,,
E,x-fmt/386,mpeg,,,
E,x-fmt/386,vob,,,
S,x-fmt/386,BOF,0,0,000001BA[40:7F]
F,x-fmt/385,MPEG-1 Program Stream,,video/mpeg,
E,x-fmt/385,mpg,,,
E,x-fmt/385,mpeg,,,
E,x-fmt/385,vob,,,
S,x-fmt/385,BOF,0,0,000001BA[21:2F]
F,movkrin/mpeg-video,MPEG video stream,,video/mpeg,
E,movkrin/mpeg-video,mpg,,,
E,movkrin/mpeg-video,mpeg,,,
E,movkrin/mpeg-video,m1v,,,
E,movkrin/mpeg-video,m2v,,,
E,movkrin/mpeg-video,mpv,,,
S,movkrin/mpeg-video,BOF,0,0,000001B3
F,movkrin/mpeg-ts,MPEG transport stream,,video/mp2t,
E,movkrin/mpeg-ts,ts,,,
E,movkrin/mpeg-ts,m2t,,,
E,movkrin/mpeg-ts,mts,,,
E,movkrin/mpeg-ts,m2ts,,,
S,movkrin/mpeg-ts,BOF,0,0,47{187}47{187}47{187}47{187}47
S,movkrin/mpeg-ts,BOF,4,4,47{191}47{191}47{191}47{191}47
F,x-fmt/152,Digital Video,,video/DV,
E,x-fmt/152,dv,,,
E,x-fmt/152,dif,,,
S,x-fmt/152,BOF,0,0,1F0700(3F|BF){76}[20:3F]0700
F,movkrin/realmedia,RealMedia,,application/vnd.rn-realmedia,
E,movkrin/realmedia,rm,,,
E,movkrin/realmedia,rmvb,,,
E,movkrin/realmedia,rv,,,
E,movkrin/realmedia,ra,,,
S,movkrin/realmedia,BOF,0,0,2E524D46000000(10|12)00(00|01)
F,movkrin/realaudio,RealAudio,,audio/x-pn-realaudio,
E,movkrin/realaudio,ra,,,
S,movkrin/realaudio,BOF,0,0,2E7261FD00(03|04|05)
F,fmt/200,Material Exchange Format,,application/mxf,
E,fmt/200,mxf,,,
S,fmt/200,BOF,0,0,060E2B34020501010D0102010102
F,fmt/101,Extensible Markup Language,1.0,text/xml,
E,fmt/101,xml,,,
E,fmt/101,xsd,,,
E,fmt/101,xsl,,,
E,fmt/101,xslt,,,
E,fmt/101,rdf,,,
S,fmt/101,BOF,0,0,(3C|EFBBBF3C)3F786D6C(20|09|0A|0D){0-16}76657273696F6E{0-4}(22|27)312E30(22|27)
S,fmt/101,BOF,0,0,FFFE3C003F0078006D006C00{0-32}760065007200730069006F006E003D00(2200|2700)31002E003000(2200|2700)
S,fmt/101,BOF,0,0,FEFF003C003F0078006D006C{0-32}00760065007200730069006F006E003D(0022|0027)0031002E0030(0022|0027)
F,movkrin/xml-1-1,Extensible Markup Language,1.1,text/xml,
E,movkrin/xml-1-1,xml,,,
S,movkrin/xml-1-1,BOF,0,0,(3C|EFBBBF3C)3F786D6C(20|09|0A|0D){0-16}76657273696F6E{0-4}(22|27)312E31(22|27)
F,fmt/96,Hypertext Markup Language,,text/html,
E,fmt/96,html,,,
E,fmt/96,htm,,,
S,fmt/96,BOF,0,0,(3C|EFBBBF3C|0A3C|0D0A3C|203C|093C|0A0A3C|0D0A0D0A3C|20203C|EFBBBF0A3C|EFBBBF0D0A3C)(48|68)(54|74)(4D|6D)(4C|6C)(3E|20|09|0A|0D)
S,fmt/96,BOF,0,0,(3C|EFBBBF3C|0A3C|0D0A3C|203C|093C|0A0A3C|0D0A0D0A3C|20203C|EFBBBF0A3C|EFBBBF0D0A3C)21(44|64)(4F|6F)(43|63)(54|74)(59|79)(50|70)(45|65)(20|09|0A|0D)(48|68)(54|74)(4D|6D)(4C|6C)(3E|20|09|0A|0D)
S,fmt/96,BOF,0,0,(3C|EFBBBF3C|0A3C|0D0A3C|203C|093C|0A0A3C|0D0A0D0A3C|20203C|EFBBBF0A3C|EFBBBF0D0A3C)(212D2D|3F786D6C)
B,fmt/96,BOF,0,1023,3C(48|68)(54|74)(4D|6D)(4C|6C)(3E|20|09|0A|0D)
F,fmt/97,Hypertext Markup Language,2.0,text/html,
E,fmt/97,html,,,
E,fmt/97,htm,,,
S,fmt/97,BOF,0,0,(3C|EFBBBF3C|0A3C|0D0A3C|203C|093C|0A0A3C|0D0A0D0A3C|20203C|EFBBBF0A3C|EFBBBF0D0A3C)
B,fmt/97,BOF,0,1023,3C21(44|64)(4F|6F)(43|63)(54|74)(59|79)(50|70)(45|65)(20|09|0A|0D)(48|68)(54|74)(4D|6D)(4C|6C)(20|09|0A|0D)(50|70)(55|75)(42|62)(4C|6C)(49|69)(43|63){0-7}(22|27)(2D2F2F494554462F2F4454442048544D4C2F2F|2D2F2F494554462F2F4454442048544D4C20322E30|2D2F2F494554462F2F4454442048544D4C205374726963742F2F)
F,fmt/98,Hypertext Markup Language,3.2,text/html,
E,fmt/98,html,,,
E,fmt/98,htm,,,
S,fmt/98,BOF,0,0,(3C|EFBBBF3C|0A3C|0D0A3C|203C|093C|0A0A3C|0D0A0D0A3C|20203C|EFBBBF0A3C|EFBBBF0D0A3C)
B,fmt/98,BOF,0,1023,3C21(44|64)(4F|6F)(43|63)(54|74)(59|79)(50|70)(45|65)(20|09|0A|0D)(48|68)(54|74)(4D|6D)(4C|6C)(20|09|0A|0D)(50|70)(55|75)(42|62)(4C|6C)(49|69)(43|63){0-7}(22|27)2D2F2F5733432F2F4454442048544D4C20332E32
F,fmt/99,Hypertext Markup Language,4.0,text/html,
E,fmt/99,html,,,
E,fmt/99,htm,,,
S,fmt/99,BOF,0,0,(3C|EFBBBF3C|0A3C|0D0A3C|203C|093C|0A0A3C|0D0A0D0A3C|20203C|EFBBBF0A3C|EFBBBF0D0A3C)
B,fmt/99,BOF,0,1023,3C21(44|64)(4F|6F)(43|63)(54|74)(59|79)(50|70)(45|65)(20|09|0A|0D)(48|68)(54|74)(4D|6D)(4C|6C)(20|09|0A|0D)(50|70)(55|75)(42|62)(4C|6C)(49|69)(43|63){0-7}(22|27)(2D2F2F5733432F2F4454442048544D4C20342E302F2F|2D2F2F5733432F2F4454442048544D4C20342E3020)
F,fmt/100,Hypertext Markup Language,4.01,text/html,
E,fmt/100,html,,,
E,fmt/100,htm,,,
S,fmt/100,BOF,0,0,(3C|EFBBBF3C|0A3C|0D0A3C|203C|093C|0A0A3C|0D0A0D0A3C|20203C|EFBBBF0A3C|EFBBBF0D0A3C)
B,fmt/100,BOF,0,1023,3C21(44|64)(4F|6F)(43|63)(54|74)(59|79)(50|70)(45|65)(20|09|0A|0D)(48|68)(54|74)(4D|6D)(4C|6C)(20|09|0A|0D)(50|70)(55|75)(42|62)(4C|6C)(49|69)(43|63){0-7}(22|27)2D2F2F5733432F2F4454442048544D4C20342E3031
F,fmt/471,Hypertext Markup Language,5,text/html,
E,fmt/471,html,,,
E,fmt/471,htm,,,
S,fmt/471,BOF,0,0,(3C|EFBBBF3C|0A3C|0D0A3C|203C|093C|0A0A3C|0D0A0D0A3C|20203C|EFBBBF0A3C|EFBBBF0D0A3C)21(44|64)(4F|6F)(43|63)(54|74)(59|79)(50|70)(45|65)(20|09|0A|0D)(48|68)(54|74)(4D|6D)(4C|6C){0-2}3E
F,movkrin/xhtml,Extensible Hypertext Markup Language,,application/xhtml+xml,
E,movkrin/xhtml,xhtml,,,
E,movkrin/xhtml,xht,,,
E,movkrin/xhtml,html,,,
E,movkrin/xhtml,htm,,,
S,movkrin/xhtml,BOF,0,0,(3C|EFBBBF3C)3F786D6C
B,movkrin/xhtml,BOF,0,2047,3C68746D6C(20|09|0A|0D){0-511}687474703A2F2F7777772E77332E6F72672F313939392F7868746D6C
F,fmt/102,Extensible Hypertext Markup Language,1.0,application/xhtml+xml,
E,fmt/102,xhtml,,,
E,fmt/102,xht,,,
E,fmt/102,html,,,
E,fmt/102,htm,,,
S,fmt/102,BOF,0,0,(3C|EFBBBF3C|0A3C|0D0A3C|203C|093C|0A0A3C|0D0A0D0A3C|20203C|EFBBBF0A3C|EFBBBF0D0A3C)
B,fmt/102,BOF,0,1023,3C21(44|64)(4F|6F)(43|63)(54|74)(59|79)(50|70)(45|65)(20|09|0A|0D)(48|68)(54|74)(4D|6D)(4C|6C)(20|09|0A|0D)(50|70)(55|75)(42|62)(4C|6C)(49|69)(43|63){0-7}(22|27)2D2F2F5733432F2F445444205848544D4C20312E3020
F,fmt/103,Extensible Hypertext Markup Language,1.1,application/xhtml+xml,
E,fmt/103,xhtml,,,
E,fmt/103,xht,,,
E,fmt/103,html,,,
E,fmt/103,htm,,,
S,fmt/103,BOF,0,0,(3C|EFBBBF3C|0A3C|0D0A3C|203C|093C|0A0A3C|0D0A0D0A3C|20203C|EFBBBF0A3C|EFBBBF0D0A3C)
B,fmt/103,BOF,0,1023,3C21(44|64)(4F|6F)(43|63)(54|74)(59|79)(50|70)(45|65)(20|09|0A|0D)(48|68)(54|74)(4D|6D)(4C|6C)(20|09|0A|0D)(50|70)(55|75)(42|62)(4C|6C)(49|69)(43|63){0-7}(22|27)2D2F2F5733432F2F445444205848544D4C20312E31
F,movkrin/svg,Scalable Vector Graphics,,image/svg+xml,
E,movkrin/svg,svg,,,
S,movkrin/svg,BOF,0,0,(3C|EFBBBF3C)(737667|3F786D6C|21444F4354595045|212D2D)
B,movkrin/svg,BOF,0,4095,3C737667(20|09|0A|0D){0-2047}687474703A2F2F7777772E77332E6F72672F323030302F737667
F,fmt/91,Scalable Vector Graphics,1.0,image/svg+xml,
E,fmt/91,svg,,,
S,fmt/91,BOF,0,0,(3C|EFBBBF3C)(737667|3F786D6C|21444F4354595045|212D2D)
B,fmt/91,BOF,0,4095,2D2F2F5733432F2F4454442053564720312E302F2F454E
S,fmt/91,BOF,0,0,(3C|EFBBBF3C)(737667|3F786D6C|21444F4354595045|212D2D)
B,fmt/91,BOF,0,4095,3C737667(20|09|0A|0D){0-1023}(20|09|0A|0D)76657273696F6E3D(22|27)312E30(22|27)
F,fmt/92,Scalable Vector Graphics,1.1,image/svg+xml,
E,fmt/92,svg,,,
S,fmt/92,BOF,0,0,(3C|EFBBBF3C)(737667|3F786D6C|21444F4354595045|212D2D)
B,fmt/92,BOF,0,4095,2D2F2F5733432F2F4454442053564720312E312F2F454E
S,fmt/92,BOF,0,0,(3C|EFBBBF3C)(737667|3F786D6C|21444F4354595045|212D2D)
B,fmt/92,BOF,0,4095,3C737667(20|09|0A|0D){0-1023}(20|09|0A|0D)76657273696F6E3D(22|27)312E31(22|27)
F,movkrin/atom,Atom feed,1.0,application/atom+xml,
E,movkrin/atom,atom,,,
E,movkrin/atom,xml,,,
S,movkrin/atom,BOF,0,0,(3C|EFBBBF3C)
B,movkrin/atom,BOF,0,4095,3C66656564(20|09|0A|0D){0-1023}687474703A2F2F7777772E77332E6F72672F323030352F41746F6D
F,movkrin/rss,RSS feed,2.0,application/rss+xml,
E,movkrin/rss,rss,,,
E,movkrin/rss,xml,,,
S,movkrin/rss,BOF,0,0,(3C|EFBBBF3C)
B,movkrin/rss,BOF,0,4095,3C727373(20|09|0A|0D){0-1023}76657273696F6E3D(22|27)322E30
F,movkrin/kml,Keyhole Markup Language,2,application/vnd.google-earth.kml+xml,
E,movkrin/kml,kml,,,
S,movkrin/kml,BOF,0,0,(3C|EFBBBF3C)
B,movkrin/kml,BOF,0,4095,3C6B6D6C(20|09|0A|0D){0-1023}687474703A2F2F7777772E6F70656E6769732E6E65742F6B6D6C2F32
F,movkrin/gpx,GPS Exchange Format,1,application/gpx+xml,
E,movkrin/gpx,gpx,,,
S,movkrin/gpx,BOF,0,0,(3C|EFBBBF3C)
B,movkrin/gpx,BOF,0,4095,3C677078(20|09|0A|0D){0-1023}687474703A2F2F7777772E746F706F6772616669782E636F6D2F4750582F312F
F,movkrin/gml,Geography Markup Language,,application/gml+xml,
E,movkrin/gml,gml,,,
E,movkrin/gml,xml,,,
S,movkrin/gml,BOF,0,0,(3C|EFBBBF3C)
B,movkrin/gml,BOF,0,4095,3C(676D6C|6F6772|776673)3A46656174757265436F6C6C656374696F6E(20|09|0A|0D){0-1023}687474703A2F2F7777772E6F70656E6769732E6E65742F676D6C
S,movkrin/gml,BOF,0,0,(3C|EFBBBF3C)
B,movkrin/gml,BOF,0,4095,3C46656174757265436F6C6C656374696F6E(20|09|0A|0D){0-1023}687474703A2F2F7777772E6F70656E6769732E6E65742F676D6C
F,x-fmt/281,XSL Transformations,,application/xslt+xml,
E,x-fmt/281,xsl,,,
E,x-fmt/281,xslt,,,
S,x-fmt/281,BOF,0,0,(3C|EFBBBF3C)
B,x-fmt/281,BOF,0,4095,3C(78736C3A7374796C657368656574|78736C3A7472616E73666F726D)(20|09|0A|0D){0-1023}687474703A2F2F7777772E77332E6F72672F313939392F58534C2F5472616E73666F726D
F,x-fmt/280,XML Schema,,application/xml,
E,x-fmt/280,xsd,,,
S,x-fmt/280,BOF,0,0,(3C|EFBBBF3C)
B,x-fmt/280,BOF,0,4095,3C(736368656D61|78733A736368656D61|7873643A736368656D61)(20|09|0A|0D){0-1023}687474703A2F2F7777772E77332E6F72672F323030312F584D4C536368656D61
F,movkrin/mathml,Mathematical Markup Language,,application/mathml+xml,
E,movkrin/mathml,mml,,,
S,movkrin/mathml,BOF,0,0,(3C|EFBBBF3C)
B,movkrin/mathml,BOF,0,4095,3C6D617468(20|09|0A|0D){0-1023}687474703A2F2F7777772E77332E6F72672F313939382F4D6174682F4D6174684D4C
F,movkrin/musicxml,MusicXML,,application/vnd.recordare.musicxml+xml,
E,movkrin/musicxml,musicxml,,,
E,movkrin/musicxml,xml,,,
S,movkrin/musicxml,BOF,0,0,(3C|EFBBBF3C)
B,movkrin/musicxml,BOF,0,4095,3C21444F43545950452073636F72652D(7061727477697365|74696D6577697365)
F,movkrin/plist,\"Property list, XML\",1.0,application/x-plist,
E,movkrin/plist,plist,,,
S,movkrin/plist,BOF,0,0,(3C|EFBBBF3C)
B,movkrin/plist,BOF,0,4095,3C21444F435459504520706C697374205055424C4943
F,movkrin/fodt,Flat OpenDocument text,,application/vnd.oasis.opendocument.text-flat-xml,
E,movkrin/fodt,fodt,,,
S,movkrin/fodt,BOF,0,0,(3C|EFBBBF3C)3F786D6C
B,movkrin/fodt,BOF,0,4095,3C6F66666963653A646F63756D656E74(20|09|0A|0D){0-8191}6F66666963653A6D696D65747970653D(22|27)6170706C69636174696F6E2F766E642E6F617369732E6F70656E646F63756D656E742E74657874(22|27)
F,movkrin/fods,Flat OpenDocument spreadsheet,,application/vnd.oasis.opendocument.spreadsheet-flat-xml,
E,movkrin/fods,fods,,,
S,movkrin/fods,BOF,0,0,(3C|EFBBBF3C)3F786D6C
B,movkrin/fods,BOF,0,4095,3C6F66666963653A646F63756D656E74(20|09|0A|0D){0-8191}6F66666963653A6D696D65747970653D(22|27)6170706C69636174696F6E2F766E642E6F617369732E6F70656E646F63756D656E742E7370726561647368656574(22|27)
F,movkrin/fodp,Flat OpenDocument presentation,,application/vnd.oasis.opendocument.presentation-flat-xml,
E,movkrin/fodp,fodp,,,
S,movkrin/fodp,BOF,0,0,(3C|EFBBBF3C)3F786D6C
B,movkrin/fodp,BOF,0,4095,3C6F66666963653A646F63756D656E74(20|09|0A|0D){0-8191}6F66666963653A6D696D65747970653D(22|27)6170706C69636174696F6E2F766E642E6F617369732E6F70656E646F63756D656E742E70726573656E746174696F6E(22|27)
F,movkrin/fodg,Flat OpenDocument drawing,,application/vnd.oasis.opendocument.graphics-flat-xml,
E,movkrin/fodg,fodg,,,
S,movkrin/fodg,BOF,0,0,(3C|EFBBBF3C)3F786D6C
B,movkrin/fodg,BOF,0,4095,3C6F66666963653A646F63756D656E74(20|09|0A|0D){0-8191}6F66666963653A6D696D65747970653D(22|27)6170706C69636174696F6E2F766E642E6F617369732E6F70656E646F63756D656E742E6772617068696373(22|27)
F,fmt/278,Internet Message Format,,message/rfc822,
E,fmt/278,eml,,,
S,fmt/278,BOF,0,0,(52657475726E2D506174683A|44656C6976657265642D546F3A|52656365697665643A|4D6573736167652D49443A|4D6573736167652D49643A|4D494D452D56657273696F6E3A|5375626A6563743A|546F3A|5265706C792D546F3A|582D|436F6E74656E742D547970653A|444B494D2D5369676E61747572653A|41757468656E7469636174696F6E2D526573756C74733A|4152432D|53656E6465723A|43633A|5265666572656E6365733A|496E2D5265706C792D546F3A|557365722D4167656E743A)
B,fmt/278,BOF,0,65535,0A46726F6D3A
B,fmt/278,BOF,0,65535,0A446174653A
S,fmt/278,BOF,0,0,46726F6D3A
B,fmt/278,BOF,0,65535,0A446174653A
S,fmt/278,BOF,0,0,446174653A
B,fmt/278,BOF,0,65535,0A46726F6D3A
F,fmt/720,Mailbox,,application/mbox,
E,fmt/720,mbox,,,
E,fmt/720,mbx,,,
S,fmt/720,BOF,0,0,46726F6D20{1-254}20(4D6F6E|547565|576564|546875|467269|536174|53756E)20(4A616E|466562|4D6172|417072|4D6179|4A756E|4A756C|417567|536570|4F6374|4E6F76|446563)20
F,movkrin/vcard,vCard,,text/vcard,
E,movkrin/vcard,vcf,,,
E,movkrin/vcard,vcard,,,
S,movkrin/vcard,BOF,0,0,(42|62)(45|65)(47|67)(49|69)(4E|6E)3A(56|76)(43|63)(41|61)(52|72)(44|64)(0D|0A)
F,fmt/388,iCalendar,,text/calendar,
E,fmt/388,ics,,,
E,fmt/388,ifb,,,
S,fmt/388,BOF,0,0,(42|62)(45|65)(47|67)(49|69)(4E|6E)3A(56|76)(43|63)(41|61)(4C|6C)(45|65)(4E|6E)(44|64)(41|61)(52|72)(0D|0A)
F,movkrin/pem-certificate,\"Certificate, textual encoding\",,application/pem-certificate-chain,
E,movkrin/pem-certificate,pem,,,
E,movkrin/pem-certificate,crt,,,
E,movkrin/pem-certificate,cer,,,
S,movkrin/pem-certificate,BOF,0,0,2D2D2D2D2D424547494E2043455254494649434154452D2D2D2D2D
F,movkrin/pem-key,\"Key, textual encoding\",,,
E,movkrin/pem-key,pem,,,
E,movkrin/pem-key,key,,,
E,movkrin/pem-key,pub,,,
S,movkrin/pem-key,BOF,0,0,2D2D2D2D2D424547494E20(50524956415445204B45592D2D2D2D2D|454E435259505445442050524956415445204B45592D2D2D2D2D|5055424C4943204B45592D2D2D2D2D)
F,movkrin/openpgp-message,\"OpenPGP message, ASCII armour\",,application/pgp-encrypted,
E,movkrin/openpgp-message,asc,,,
E,movkrin/openpgp-message,pgp,,,
E,movkrin/openpgp-message,gpg,,,
S,movkrin/openpgp-message,BOF,0,0,2D2D2D2D2D424547494E20504750204D4553534147452D2D2D2D2D
F,movkrin/openpgp-signature,\"OpenPGP signature, ASCII armour\",,application/pgp-signature,
E,movkrin/openpgp-signature,asc,,,
E,movkrin/openpgp-signature,pgp,,,
E,movkrin/openpgp-signature,sig,,,
S,movkrin/openpgp-signature,BOF,0,0,2D2D2D2D2D424547494E20504750205349474E41545552452D2D2D2D2D
F,movkrin/openpgp-key,\"OpenPGP public key, ASCII armour\",,application/pgp-keys,
E,movkrin/openpgp-key,asc,,,
E,movkrin/openpgp-key,pgp,,,
E,movkrin/openpgp-key,sig,,,
S,movkrin/openpgp-key,BOF,0,0,2D2D2D2D2D424547494E20504750205055424C4943204B455920424C4F434B2D2D2D2D2D
F,movkrin/webvtt,WebVTT,,text/vtt,
E,movkrin/webvtt,vtt,,,
S,movkrin/webvtt,BOF,0,0,(574542565454|EFBBBF574542565454)(0A|0D|20|09)
F,fmt/688,Executable and Linkable Format,32-bit little endian,application/x-executable,
S,fmt/688,BOF,0,0,7F454C46010101
F,fmt/689,Executable and Linkable Format,32-bit big endian,application/x-executable,
S,fmt/689,BOF,0,0,7F454C46010201
F,fmt/690,Executable and Linkable Format,64-bit little endian,application/x-executable,
S,fmt/690,BOF,0,0,7F454C46020101
F,fmt/691,Executable and Linkable Format,64-bit big endian,application/x-executable,
S,fmt/691,BOF,0,0,7F454C46020201
F,x-fmt/409,MS-DOS Executable,,application/x-dosexec,
E,x-fmt/409,exe,,,
E,x-fmt/409,com,,,
S,x-fmt/409,BOF,0,0,4D5A??(00|01)
F,fmt/899,Windows Portable Executable,32 bit,application/vnd.microsoft.portable-executable,
E,fmt/899,exe,,,
E,fmt/899,dll,,,
E,fmt/899,sys,,,
E,fmt/899,ocx,,,
E,fmt/899,cpl,,,
E,fmt/899,scr,,,
E,fmt/899,drv,,,
E,fmt/899,efi,,,
E,fmt/899,mui,,,
S,fmt/899,BOF,0,0,4D5A??(00|01)
B,fmt/899,BOF,64,4095,50450000(4C01|6486|64AA|C401|0002|BC0E){18}0B01
F,fmt/900,Windows Portable Executable,64 bit,application/vnd.microsoft.portable-executable,
E,fmt/900,exe,,,
E,fmt/900,dll,,,
E,fmt/900,sys,,,
E,fmt/900,ocx,,,
E,fmt/900,cpl,,,
E,fmt/900,scr,,,
E,fmt/900,drv,,,
E,fmt/900,efi,,,
E,fmt/900,mui,,,
S,fmt/900,BOF,0,0,4D5A??(00|01)
B,fmt/900,BOF,64,4095,50450000(4C01|6486|64AA|C401|0002|BC0E){18}0B02
F,movkrin/mach-o,Mach-O,,application/x-mach-binary,
E,movkrin/mach-o,dylib,,,
E,movkrin/mach-o,o,,,
E,movkrin/mach-o,bundle,,,
S,movkrin/mach-o,BOF,0,0,(CF|CE)FAEDFE(07|0C|12)0000(00|01)
S,movkrin/mach-o,BOF,0,0,FEEDFA(CE|CF)(00|01)0000(07|0C|12)
F,movkrin/mach-o-fat,Mach-O universal binary,,application/x-mach-binary,
E,movkrin/mach-o-fat,dylib,,,
E,movkrin/mach-o-fat,o,,,
E,movkrin/mach-o-fat,bundle,,,
E,movkrin/mach-o-fat,a,,,
S,movkrin/mach-o-fat,BOF,0,0,CAFEBABE000000[01:1E]
F,x-fmt/415,Java class file,,application/x-java-applet,
E,x-fmt/415,class,,,
S,x-fmt/415,BOF,0,0,CAFEBABE????00[2D:7F]
F,movkrin/wasm,WebAssembly,1,application/wasm,
E,movkrin/wasm,wasm,,,
S,movkrin/wasm,BOF,0,0,0061736D01000000
F,movkrin/dex,Dalvik executable,,,
E,movkrin/dex,dex,,,
S,movkrin/dex,BOF,0,0,6465780A30(33|34)[30:39]00
F,movkrin/lnk,Windows shortcut,,application/x-ms-shortcut,
E,movkrin/lnk,lnk,,,
S,movkrin/lnk,BOF,0,0,4C0000000114020000000000C000000000000046
F,fmt/729,SQLite Database File Format,3,application/vnd.sqlite3,
E,fmt/729,sqlite,,,
E,fmt/729,sqlite3,,,
E,fmt/729,db,,,
E,fmt/729,db3,,,
S,fmt/729,BOF,0,0,53514C69746520666F726D6174203300
F,movkrin/geopackage,GeoPackage,,application/geopackage+sqlite3,
E,movkrin/geopackage,gpkg,,,
S,movkrin/geopackage,BOF,0,0,53514C69746520666F726D6174203300
B,movkrin/geopackage,BOF,68,68,(47504B47|47503130|47503131)
F,movkrin/hdf5,Hierarchical Data Format,5,application/x-hdf5,
E,movkrin/hdf5,h5,,,
E,movkrin/hdf5,hdf5,,,
E,movkrin/hdf5,hdf,,,
E,movkrin/hdf5,he5,,,
S,movkrin/hdf5,BOF,0,0,894844460D0A1A0A
S,movkrin/hdf5,BOF,512,512,894844460D0A1A0A
S,movkrin/hdf5,BOF,1024,1024,894844460D0A1A0A
S,movkrin/hdf5,BOF,2048,2048,894844460D0A1A0A
F,movkrin/netcdf,NetCDF classic,,application/x-netcdf,
E,movkrin/netcdf,nc,,,
E,movkrin/netcdf,cdf,,,
S,movkrin/netcdf,BOF,0,0,434446(01|02|05)
F,movkrin/mat-5,MATLAB MAT-file,5,application/x-matlab-data,
E,movkrin/mat-5,mat,,,
S,movkrin/mat-5,BOF,0,0,4D41544C414220352E30204D41542D66696C65
F,movkrin/npy,NumPy array,,,
E,movkrin/npy,npy,,,
S,movkrin/npy,BOF,0,0,934E554D5059[01:03]00
F,movkrin/parquet,Apache Parquet,,application/vnd.apache.parquet,
E,movkrin/parquet,parquet,,,
S,movkrin/parquet,BOF,0,0,50415231
B,movkrin/parquet,EOF,0,0,50415231
F,movkrin/arrow,Apache Arrow file,,application/vnd.apache.arrow.file,
E,movkrin/arrow,arrow,,,
E,movkrin/arrow,feather,,,
S,movkrin/arrow,BOF,0,0,4152524F57310000
F,movkrin/avro,Apache Avro object container,,,
E,movkrin/avro,avro,,,
S,movkrin/avro,BOF,0,0,4F626A01
F,movkrin/pcap,Packet capture,2.4,application/vnd.tcpdump.pcap,
E,movkrin/pcap,pcap,,,
E,movkrin/pcap,cap,,,
E,movkrin/pcap,dmp,,,
S,movkrin/pcap,BOF,0,0,(D4C3B2A1|4D3CB2A1)02000400
S,movkrin/pcap,BOF,0,0,(A1B2C3D4|A1B23C4D)00020004
F,movkrin/pcapng,\"Packet capture, next generation\",,application/x-pcapng,
E,movkrin/pcapng,pcapng,,,
S,movkrin/pcapng,BOF,0,0,0A0D0D0A{4}(4D3C2B1A|1A2B3C4D)
F,x-fmt/9,dBASE Database,III,application/vnd.dbf,
E,x-fmt/9,dbf,,,
S,x-fmt/9,BOF,0,0,(03|83)??[01:0C][01:1F]{4}(01|21|41|61|81|A1|C1|E1|02|22|42|62|82|A2|C2|E2)[00:10]{2}0000{18}[41:7A]{10}(43|44|46|4C|4D|4E)
F,movkrin/dbf,dBASE IV or FoxPro table,,application/vnd.dbf,
E,movkrin/dbf,dbf,,,
S,movkrin/dbf,BOF,0,0,(30|31|32|43|63|8B|CB|F5|FB)??[01:0C][01:1F]{4}(01|21|41|61|81|A1|C1|E1|02|22|42|62|82|A2|C2|E2|08|28|48|68|88|A8|C8|E8)[00:20]{2}0000{18}[41:7A]{10}(42|43|44|46|47|49|4C|4D|4E|50|51|54|56|57|59)
F,movkrin/sylk,Symbolic Link,,application/x-sylk,
E,movkrin/sylk,slk,,,
E,movkrin/sylk,sylk,,,
E,movkrin/sylk,slc,,,
S,movkrin/sylk,BOF,0,0,49443B50{0-64}(0A|0D)(42|43|46|4F|50)3B
B,movkrin/sylk,EOF,0,2,(0A|0D)45
F,movkrin/dif,Data Interchange Format,,application/x-dif,
E,movkrin/dif,dif,,,
S,movkrin/dif,BOF,0,0,5441424C45(0A|0D0A|0D)302C31(0A|0D0A|0D)22
F,movkrin/icc,ICC profile,,application/vnd.iccprofile,
E,movkrin/icc,icc,,,
E,movkrin/icc,icm,,,
S,movkrin/icc,BOF,8,8,(02|04|05)[00:50]{2}(73636E72|6D6E7472|70727472|6C696E6B|73706163|61627374|6E6D636C){20}61637370
F,movkrin/shp,ESRI Shapefile,,application/vnd.shp,
E,movkrin/shp,shp,,,
E,movkrin/shp,shx,,,
S,movkrin/shp,BOF,0,0,0000270A0000000000000000000000000000000000000000{4}E8030000
F,movkrin/gettext-mo,Gettext message catalogue,,application/x-gettext-translation,
E,movkrin/gettext-mo,mo,,,
E,movkrin/gettext-mo,gmo,,,
S,movkrin/gettext-mo,BOF,0,0,DE120495??00(00|01)00
S,movkrin/gettext-mo,BOF,0,0,950412DE00(00|01)00??
F,movkrin/tzif,Time Zone Information Format,,application/tzif,
E,movkrin/tzif,tzif,,,
S,movkrin/tzif,BOF,0,0,545A6966(00|32|33|34)000000
F,movkrin/torrent,BitTorrent metainfo,,application/x-bittorrent,
E,movkrin/torrent,torrent,,,
S,movkrin/torrent,BOF,0,0,64383A616E6E6F756E6365[30:39]
S,movkrin/torrent,BOF,0,0,6431333A616E6E6F756E63652D6C697374
F,movkrin/vhd,Virtual hard disk,,,
E,movkrin/vhd,vhd,,,
S,movkrin/vhd,EOF,504,504,636F6E6563746978
F,movkrin/vhdx,Virtual hard disk,2,,
E,movkrin/vhdx,vhdx,,,
S,movkrin/vhdx,BOF,0,0,7668647866696C65
F,movkrin/qcow2,QEMU disk image,,application/x-qemu-disk,
E,movkrin/qcow2,qcow2,,,
E,movkrin/qcow2,qcow,,,
S,movkrin/qcow2,BOF,0,0,514649FB000000(02|03)
F,movkrin/vmdk,VMware sparse disk,,,
E,movkrin/vmdk,vmdk,,,
S,movkrin/vmdk,BOF,0,0,4B444D56[01:03]000000
F,x-fmt/453,TrueType font,,font/ttf,
E,x-fmt/453,ttf,,,
S,x-fmt/453,BOF,0,0,0001000000[04:7F](0040|0080|0100|0200|0400)00[02:06]
F,fmt/520,\"OpenType font, CFF\",,font/otf,
E,fmt/520,otf,,,
S,fmt/520,BOF,0,0,4F54544F00[04:7F](0040|0080|0100|0200|0400)00[02:06]
F,movkrin/ttc,Font collection,,font/collection,
E,movkrin/ttc,ttc,,,
E,movkrin/ttc,otc,,,
S,movkrin/ttc,BOF,0,0,7474636600(01|02)0000
F,movkrin/woff,Web Open Font Format,1,font/woff,
E,movkrin/woff,woff,,,
S,movkrin/woff,BOF,0,0,774F4646(00010000|4F54544F|74727565)
F,movkrin/woff2,Web Open Font Format,2,font/woff2,
E,movkrin/woff2,woff2,,,
S,movkrin/woff2,BOF,0,0,774F4632(00010000|4F54544F|74727565|74746366)
F,movkrin/type1,Type 1 font,,application/x-font-type1,
E,movkrin/type1,pfa,,,
E,movkrin/type1,t1,,,
S,movkrin/type1,BOF,0,0,2521(50532D41646F6265466F6E742D31|466F6E745479706531)
F,movkrin/pfb,\"Type 1 font, binary\",,application/x-font-type1,
E,movkrin/pfb,pfb,,,
S,movkrin/pfb,BOF,0,0,8001{4}2521(50532D41646F6265466F6E742D31|466F6E745479706531)
F,x-fmt/111,Plain Text File,,text/plain,
E,x-fmt/111,txt,,,
E,x-fmt/111,text,,,
F,x-fmt/18,Comma Separated Values,,text/csv,
E,x-fmt/18,csv,,,
F,x-fmt/13,Tab-separated Values,,text/tab-separated-values,
E,x-fmt/13,tsv,,,
E,x-fmt/13,tab,,,
F,fmt/817,JSON Data Interchange Format,,application/json,
E,fmt/817,json,,,
F,fmt/1149,Markdown,,text/markdown,
E,fmt/1149,md,,,
E,fmt/1149,markdown,,,
F,movkrin/mp3-by-name,MPEG audio by its name,,audio/mpeg,
E,movkrin/mp3-by-name,mp3,,,
F,movkrin/xml-by-name,XML by its name,,text/xml,
E,movkrin/xml-by-name,xml,,,
F,movkrin/html-by-name,HTML by its name,,text/html,
E,movkrin/html-by-name,html,,,
E,movkrin/html-by-name,htm,,,
F,movkrin/postscript-by-name,PostScript by its name,,application/postscript,
E,movkrin/postscript-by-name,ps,,,
F,movkrin/tar-by-name,Tape archive by its name,,application/x-tar,
E,movkrin/tar-by-name,tar,,,
F,movkrin/geojson,GeoJSON,,application/geo+json,
E,movkrin/geojson,geojson,,,
F,movkrin/json-lines,JSON Lines,,,
E,movkrin/json-lines,jsonl,,,
E,movkrin/json-lines,ndjson,,,
F,movkrin/json-ld,JSON-LD,,application/ld+json,
E,movkrin/json-ld,jsonld,,,
F,movkrin/ipynb,Jupyter notebook,,,
E,movkrin/ipynb,ipynb,,,
F,movkrin/yaml,YAML,,application/yaml,
E,movkrin/yaml,yaml,,,
E,movkrin/yaml,yml,,,
F,movkrin/toml,TOML,,application/toml,
E,movkrin/toml,toml,,,
F,movkrin/ini,Initialization file,,,
E,movkrin/ini,ini,,,
E,movkrin/ini,cfg,,,
E,movkrin/ini,conf,,,
F,movkrin/log,Log file,,text/plain,
E,movkrin/log,log,,,
F,movkrin/turtle,RDF Turtle,,text/turtle,
E,movkrin/turtle,ttl,,,
F,movkrin/n-triples,N-Triples,,application/n-triples,
E,movkrin/n-triples,nt,,,
F,movkrin/dtd,XML document type definition,,application/xml-dtd,
E,movkrin/dtd,dtd,,,
F,x-fmt/224,Cascading Style Sheets,,text/css,
E,x-fmt/224,css,,,
F,movkrin/restructured-text,reStructuredText,,,
E,movkrin/restructured-text,rst,,,
F,movkrin/asciidoc,AsciiDoc,,,
E,movkrin/asciidoc,adoc,,,
E,movkrin/asciidoc,asciidoc,,,
F,movkrin/tex,TeX or LaTeX source,,application/x-tex,
E,movkrin/tex,tex,,,
E,movkrin/tex,ltx,,,
E,movkrin/tex,sty,,,
E,movkrin/tex,cls,,,
F,movkrin/bibtex,BibTeX,,,
E,movkrin/bibtex,bib,,,
F,movkrin/subrip,SubRip subtitles,,,
E,movkrin/subrip,srt,,,
F,movkrin/diff,Patch,,text/x-diff,
E,movkrin/diff,diff,,,
E,movkrin/diff,patch,,,
F,movkrin/c,C source,,text/x-c,
E,movkrin/c,c,,,
E,movkrin/c,h,,,
F,movkrin/cpp,C++ source,,text/x-c++,
E,movkrin/cpp,cpp,,,
E,movkrin/cpp,cc,,,
E,movkrin/cpp,cxx,,,
E,movkrin/cpp,hpp,,,
E,movkrin/cpp,hh,,,
E,movkrin/cpp,hxx,,,
F,movkrin/csharp,C# source,,,
E,movkrin/csharp,cs,,,
F,movkrin/objective-c,Objective-C source,,,
E,movkrin/objective-c,m,,,
E,movkrin/objective-c,mm,,,
F,movkrin/java,Java source,,text/x-java-source,
E,movkrin/java,java,,,
F,movkrin/kotlin,Kotlin source,,,
E,movkrin/kotlin,kt,,,
E,movkrin/kotlin,kts,,,
F,movkrin/scala,Scala source,,,
E,movkrin/scala,scala,,,
F,x-fmt/423,JavaScript,,text/javascript,
E,x-fmt/423,js,,,
E,x-fmt/423,mjs,,,
E,x-fmt/423,cjs,,,
F,movkrin/typescript,TypeScript,,,
E,movkrin/typescript,ts,,,
E,movkrin/typescript,tsx,,,
F,fmt/938,Python source,,text/x-python,
E,fmt/938,py,,,
E,fmt/938,pyi,,,
F,movkrin/ruby,Ruby source,,,
E,movkrin/ruby,rb,,,
F,movkrin/php,PHP source,,,
E,movkrin/php,php,,,
E,movkrin/php,phtml,,,
F,movkrin/perl,Perl source,,,
E,movkrin/perl,pl,,,
E,movkrin/perl,pm,,,
F,movkrin/lua,Lua source,,,
E,movkrin/lua,lua,,,
F,movkrin/r,R source,,,
E,movkrin/r,r,,,
F,movkrin/go,Go source,,,
E,movkrin/go,go,,,
F,movkrin/rust,Rust source,,,
E,movkrin/rust,rs,,,
F,movkrin/swift,Swift source,,,
E,movkrin/swift,swift,,,
F,movkrin/haskell,Haskell source,,,
E,movkrin/haskell,hs,,,
E,movkrin/haskell,lhs,,,
F,movkrin/pascal,Pascal source,,,
E,movkrin/pascal,pas,,,
F,movkrin/fortran,Fortran source,,,
E,movkrin/fortran,f,,,
E,movkrin/fortran,for,,,
E,movkrin/fortran,f77,,,
E,movkrin/fortran,f90,,,
E,movkrin/fortran,f95,,,
F,movkrin/ada,Ada source,,,
E,movkrin/ada,adb,,,
E,movkrin/ada,ads,,,
F,movkrin/cobol,COBOL source,,,
E,movkrin/cobol,cob,,,
E,movkrin/cobol,cbl,,,
F,movkrin/sql,SQL,,application/sql,
E,movkrin/sql,sql,,,
F,movkrin/shell,Shell script,,application/x-sh,
E,movkrin/shell,sh,,,
E,movkrin/shell,bash,,,
F,movkrin/powershell,PowerShell script,,,
E,movkrin/powershell,ps1,,,
E,movkrin/powershell,psm1,,,
F,movkrin/batch,Windows batch file,,,
E,movkrin/batch,bat,,,
E,movkrin/batch,cmd,,,
F,movkrin/vbscript,VBScript,,,
E,movkrin/vbscript,vbs,,,
F,movkrin/protobuf,Protocol buffer definition,,,
E,movkrin/protobuf,proto,,,
F,movkrin/gettext,Gettext catalogue,,,
E,movkrin/gettext,po,,,
E,movkrin/gettext,pot,,,
P,fmt/12,fmt/11,,,
P,fmt/13,fmt/11,,,
P,fmt/13,fmt/12,,,
P,fmt/935,fmt/11,,,
P,fmt/935,fmt/12,,,
P,fmt/935,fmt/13,,,
P,fmt/42,fmt/41,,,
P,fmt/43,fmt/41,,,
P,fmt/44,fmt/41,,,
P,movkrin/jpeg-exif,fmt/41,,,
P,x-fmt/398,fmt/41,,,
P,x-fmt/398,movkrin/jpeg-exif,,,
P,x-fmt/390,fmt/41,,,
P,x-fmt/390,movkrin/jpeg-exif,,,
P,x-fmt/391,fmt/41,,,
P,x-fmt/391,movkrin/jpeg-exif,,,
P,fmt/645,fmt/41,,,
P,fmt/645,movkrin/jpeg-exif,,,
P,movkrin/dng,fmt/353,,,
P,fmt/592,fmt/353,,,
P,fmt/202,fmt/353,,,
P,movkrin/arw,fmt/353,,,
P,movkrin/pef,fmt/353,,,
P,fmt/402,x-fmt/367,,,
P,fmt/95,fmt/14,,,
P,fmt/95,fmt/15,,,
P,fmt/95,fmt/16,,,
P,fmt/95,fmt/17,,,
P,fmt/95,fmt/18,,,
P,fmt/95,fmt/19,,,
P,fmt/95,fmt/20,,,
P,fmt/95,fmt/276,,,
P,fmt/354,fmt/14,,,
P,fmt/354,fmt/15,,,
P,fmt/354,fmt/16,,,
P,fmt/354,fmt/17,,,
P,fmt/354,fmt/18,,,
P,fmt/354,fmt/19,,,
P,fmt/354,fmt/20,,,
P,fmt/354,fmt/276,,,
P,fmt/476,fmt/14,,,
P,fmt/476,fmt/15,,,
P,fmt/476,fmt/16,,,
P,fmt/476,fmt/17,,,
P,fmt/476,fmt/18,,,
P,fmt/476,fmt/19,,,
P,fmt/476,fmt/20,,,
P,fmt/476,fmt/276,,,
P,fmt/477,fmt/14,,,
P,fmt/477,fmt/15,,,
P,fmt/477,fmt/16,,,
P,fmt/477,fmt/17,,,
P,fmt/477,fmt/18,,,
P,fmt/477,fmt/19,,,
P,fmt/477,fmt/20,,,
P,fmt/477,fmt/276,,,
P,fmt/478,fmt/14,,,
P,fmt/478,fmt/15,,,
P,fmt/478,fmt/16,,,
P,fmt/478,fmt/17,,,
P,fmt/478,fmt/18,,,
P,fmt/478,fmt/19,,,
P,fmt/478,fmt/20,,,
P,fmt/478,fmt/276,,,
P,fmt/479,fmt/14,,,
P,fmt/479,fmt/15,,,
P,fmt/479,fmt/16,,,
P,fmt/479,fmt/17,,,
P,fmt/479,fmt/18,,,
P,fmt/479,fmt/19,,,
P,fmt/479,fmt/20,,,
P,fmt/479,fmt/276,,,
P,fmt/480,fmt/14,,,
P,fmt/480,fmt/15,,,
P,fmt/480,fmt/16,,,
P,fmt/480,fmt/17,,,
P,fmt/480,fmt/18,,,
P,fmt/480,fmt/19,,,
P,fmt/480,fmt/20,,,
P,fmt/480,fmt/276,,,
P,fmt/481,fmt/14,,,
P,fmt/481,fmt/15,,,
P,fmt/481,fmt/16,,,
P,fmt/481,fmt/17,,,
P,fmt/481,fmt/18,,,
P,fmt/481,fmt/19,,,
P,fmt/481,fmt/20,,,
P,fmt/481,fmt/276,,,
P,movkrin/pdfa-4,fmt/1129,,,
P,movkrin/eps,movkrin/postscript,,,
P,fmt/122,movkrin/postscript,,,
P,fmt/122,movkrin/eps,,,
P,fmt/123,movkrin/postscript,,,
P,fmt/123,movkrin/eps,,,
P,fmt/124,movkrin/postscript,,,
P,fmt/124,movkrin/eps,,,
P,fmt/39,fmt/40,,,
P,fmt/39,fmt/111,,,
P,fmt/40,fmt/111,,,
P,fmt/59,fmt/111,,,
P,movkrin/xls,fmt/59,,,
P,movkrin/xls,fmt/111,,,
P,fmt/126,fmt/111,,,
P,x-fmt/430,fmt/111,,,
P,movkrin/pub,fmt/111,,,
P,movkrin/vsd,fmt/111,,,
P,fmt/412,x-fmt/263,,,
P,fmt/214,x-fmt/263,,,
P,fmt/215,x-fmt/263,,,
P,fmt/523,x-fmt/263,,,
P,fmt/523,fmt/412,,,
P,fmt/445,x-fmt/263,,,
P,fmt/445,fmt/214,,,
P,fmt/487,x-fmt/263,,,
P,fmt/487,fmt/215,,,
P,fmt/595,x-fmt/263,,,
P,movkrin/odt,x-fmt/263,,,
P,movkrin/ott,x-fmt/263,,,
P,movkrin/odm,x-fmt/263,,,
P,movkrin/oth,x-fmt/263,,,
P,movkrin/ods,x-fmt/263,,,
P,movkrin/ots,x-fmt/263,,,
P,movkrin/odp,x-fmt/263,,,
P,movkrin/otp,x-fmt/263,,,
P,movkrin/odg,x-fmt/263,,,
P,movkrin/otg,x-fmt/263,,,
P,movkrin/odf,x-fmt/263,,,
P,movkrin/odc,x-fmt/263,,,
P,movkrin/odb,x-fmt/263,,,
P,fmt/483,x-fmt/263,,,
P,movkrin/key-09,x-fmt/263,,,
P,movkrin/iwork-09,x-fmt/263,,,
P,movkrin/iwork,x-fmt/263,,,
P,movkrin/deb,movkrin/ar,,,
P,x-fmt/412,x-fmt/263,,,
P,movkrin/siard,x-fmt/263,,,
P,fmt/161,x-fmt/263,,,
P,fmt/161,movkrin/siard,,,
P,movkrin/apk,x-fmt/263,,,
P,movkrin/apk,x-fmt/412,,,
P,movkrin/bwf,fmt/6,,,
P,fmt/203,movkrin/ogg,,,
P,fmt/946,movkrin/ogg,,,
P,movkrin/ogg-flac,movkrin/ogg,,,
P,movkrin/ogg-speex,movkrin/ogg,,,
P,movkrin/ogg-theora,movkrin/ogg,,,
P,fmt/132,fmt/131,,,
P,fmt/133,fmt/131,,,
P,fmt/133,fmt/132,,,
P,fmt/96,fmt/101,,,
P,fmt/96,movkrin/xml-1-1,,,
P,fmt/96,movkrin/svg,,,
P,fmt/96,fmt/91,,,
P,fmt/96,fmt/92,,,
P,fmt/96,movkrin/mathml,,,
P,fmt/97,fmt/96,,,
P,fmt/98,fmt/96,,,
P,fmt/99,fmt/96,,,
P,fmt/100,fmt/96,,,
P,fmt/471,fmt/96,,,
P,movkrin/xhtml,fmt/96,,,
P,movkrin/xhtml,fmt/101,,,
P,movkrin/xhtml,movkrin/xml-1-1,,,
P,movkrin/xhtml,movkrin/svg,,,
P,movkrin/xhtml,fmt/91,,,
P,movkrin/xhtml,fmt/92,,,
P,movkrin/xhtml,movkrin/mathml,,,
P,fmt/102,fmt/96,,,
P,fmt/102,movkrin/xhtml,,,
P,fmt/102,fmt/101,,,
P,fmt/102,movkrin/xml-1-1,,,
P,fmt/102,movkrin/svg,,,
P,fmt/102,fmt/91,,,
P,fmt/102,fmt/92,,,
P,fmt/102,movkrin/mathml,,,
P,fmt/103,fmt/96,,,
P,fmt/103,movkrin/xhtml,,,
P,fmt/103,fmt/101,,,
P,fmt/103,movkrin/xml-1-1,,,
P,fmt/103,movkrin/svg,,,
P,fmt/103,fmt/91,,,
P,fmt/103,fmt/92,,,
P,fmt/103,movkrin/mathml,,,
P,movkrin/svg,fmt/101,,,
P,movkrin/svg,movkrin/xml-1-1,,,
P,fmt/91,movkrin/svg,,,
P,fmt/91,fmt/101,,,
P,fmt/91,movkrin/xml-1-1,,,
P,fmt/92,movkrin/svg,,,
P,fmt/92,fmt/101,,,
P,fmt/92,movkrin/xml-1-1,,,
P,movkrin/atom,fmt/101,,,
P,movkrin/atom,movkrin/xml-1-1,,,
P,movkrin/rss,fmt/101,,,
P,movkrin/rss,movkrin/xml-1-1,,,
P,movkrin/kml,fmt/101,,,
P,movkrin/kml,movkrin/xml-1-1,,,
P,movkrin/gpx,fmt/101,,,
P,movkrin/gpx,movkrin/xml-1-1,,,
P,movkrin/gml,fmt/101,,,
P,movkrin/gml,movkrin/xml-1-1,,,
P,x-fmt/281,fmt/101,,,
P,x-fmt/281,movkrin/xml-1-1,,,
P,x-fmt/281,fmt/96,,,
P,x-fmt/281,movkrin/xhtml,,,
P,x-fmt/281,movkrin/svg,,,
P,x-fmt/281,fmt/91,,,
P,x-fmt/281,fmt/92,,,
P,x-fmt/281,movkrin/atom,,,
P,x-fmt/281,movkrin/rss,,,
P,x-fmt/281,movkrin/kml,,,
P,x-fmt/281,movkrin/gpx,,,
P,x-fmt/281,x-fmt/280,,,
P,x-fmt/281,movkrin/mathml,,,
P,x-fmt/281,movkrin/gml,,,
P,x-fmt/281,movkrin/fodt,,,
P,x-fmt/281,movkrin/fods,,,
P,x-fmt/281,movkrin/fodp,,,
P,x-fmt/281,movkrin/fodg,,,
P,x-fmt/280,fmt/101,,,
P,x-fmt/280,movkrin/xml-1-1,,,
P,movkrin/mathml,fmt/101,,,
P,movkrin/mathml,movkrin/xml-1-1,,,
P,movkrin/musicxml,fmt/101,,,
P,movkrin/musicxml,movkrin/xml-1-1,,,
P,movkrin/plist,fmt/101,,,
P,movkrin/plist,movkrin/xml-1-1,,,
P,movkrin/fodt,fmt/101,,,
P,movkrin/fods,fmt/101,,,
P,movkrin/fodp,fmt/101,,,
P,movkrin/fodg,fmt/101,,,
P,fmt/899,x-fmt/409,,,
P,fmt/900,x-fmt/409,,,
P,movkrin/geopackage,fmt/729,,,
P,movkrin/type1,movkrin/postscript,,,
";
